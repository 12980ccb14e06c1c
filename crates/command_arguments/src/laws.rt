//! Laws of the definitions in specs/: functions that do nothing, whose contracts are the laws.
ghost use Rattle.std.specs.Prelude.{◌≡◌, ◌∷◌, [], None, Some, codes, false, true};
ghost use Rattle.clap.specs.Words.{fault_of};
ghost use Rattle.clap.specs.declared.error.ErrorKind.TheVariants.{ArgumentConflict, InvalidSubcommand, InvalidValue, MissingRequiredArgument, TooManyValues, UnknownArgument, ValueValidation};
ghost use Rattle.command_arguments.specs.Arguments.{asked_logs, asked_lost, asked_words, called_with, named_command, named_value, program, said, serving};
ghost use Rattle.command_arguments.specs.declared.arguments.Command.TheVariants.{Join, Play, Site, Serve, Ask, Regroup, Rebuild, Judge, Run};

/// What arguments the program is called with and how they are read, by computation alone: the layout file that they
/// name, and the kinds of error that clap may answer with.
#[tactic(auto, unfolding(clap::proofs::OnLiterals::clap_on_literals))]
pub fn arguments_read()
    ensures no_file { named_value (codes "layout") (called_with (codes "join" ∷ [])) ≡ None }
    ensures file { named_value (codes "layout") (called_with (codes "join" ∷ codes "--layout" ∷ codes "a" ∷ [])) ≡ Some (codes "a") }
    ensures file_behind_equals { named_value (codes "layout") (called_with (codes "join" ∷ codes "--layout=a" ∷ [])) ≡ Some (codes "a") }
    ensures no_error { fault_of program (called_with (codes "join" ∷ codes "--layout" ∷ codes "a" ∷ [])) ≡ [] }
    ensures missing_value { fault_of program (called_with (codes "join" ∷ codes "--layout" ∷ [])) ≡ InvalidValue ∷ [] }
    ensures two_files { fault_of program (called_with (codes "join" ∷ codes "--layout=a" ∷ codes "--layout=b" ∷ [])) ≡ ArgumentConflict ∷ [] }
    ensures stray_argument { fault_of program (called_with (codes "join" ∷ codes "x" ∷ [])) ≡ UnknownArgument ∷ [] }
    ensures option_before_command { fault_of program (called_with (codes "--layout" ∷ codes "a" ∷ [])) ≡ UnknownArgument ∷ [] }
    ensures other_command { fault_of program (called_with (codes "walk" ∷ [])) ≡ UnknownArgument ∷ InvalidSubcommand ∷ [] }
    ensures joins { named_command (called_with (codes "join" ∷ [])) ≡ Join }
    ensures flag_of_play { fault_of program (called_with (codes "join" ∷ codes "--tables" ∷ [])) ≡ UnknownArgument ∷ [] }
{}

/// The same of the command `play`: whether tables are asked for, how many sites the first sites begin with, and the
/// layout file.
#[tactic(auto, unfolding(clap::proofs::OnLiterals::clap_on_literals))]
pub fn play_arguments_read()
    ensures plain { named_command (called_with (codes "play" ∷ [])) ≡ Play false None }
    ensures tables { named_command (called_with (codes "play" ∷ codes "--tables" ∷ [])) ≡ Play true None }
    ensures first { named_command (called_with (codes "play" ∷ codes "--from" ∷ codes "1" ∷ [])) ≡ Play false (Some 1) }
    ensures greatest { named_command (called_with (codes "play" ∷ codes "--from=65535" ∷ codes "--tables" ∷ [])) ≡ Play true (Some 65535) }
    ensures file { named_value (codes "layout") (called_with (codes "play" ∷ codes "--layout" ∷ codes "a" ∷ [])) ≡ Some (codes "a") }
    ensures no_error { fault_of program (called_with (codes "play" ∷ codes "--tables" ∷ codes "--from" ∷ codes "0" ∷ [])) ≡ [] }
    ensures no_number { fault_of program (called_with (codes "play" ∷ codes "--from" ∷ codes "x" ∷ [])) ≡ ValueValidation ∷ [] }
    ensures too_great { fault_of program (called_with (codes "play" ∷ codes "--from" ∷ codes "65536" ∷ [])) ≡ ValueValidation ∷ [] }
    ensures missing_number { fault_of program (called_with (codes "play" ∷ codes "--from" ∷ [])) ≡ InvalidValue ∷ [] }
    ensures two_numbers { fault_of program (called_with (codes "play" ∷ codes "--from=1" ∷ codes "--from=2" ∷ [])) ≡ ArgumentConflict ∷ [] }
    ensures flag_with_value { fault_of program (called_with (codes "play" ∷ codes "--tables=1" ∷ [])) ≡ TooManyValues ∷ [] }
{}

/// The same of the command `site`: the site's number and the store's file, both of which are needed.
#[tactic(auto, unfolding(clap::proofs::OnLiterals::clap_on_literals))]
pub fn site_arguments_read()
    ensures plain { named_command (called_with (codes "site" ∷ codes "--site" ∷ codes "1" ∷ codes "--store" ∷ codes "a" ∷ [])) ≡ Site 1 }
    ensures store { named_value (codes "store") (called_with (codes "site" ∷ codes "--site" ∷ codes "1" ∷ codes "--store" ∷ codes "a" ∷ [])) ≡ Some (codes "a") }
    ensures behind_equals { named_command (called_with (codes "site" ∷ codes "--store=a" ∷ codes "--site=65535" ∷ [])) ≡ Site 65535 }
    ensures store_behind_equals { named_value (codes "store") (called_with (codes "site" ∷ codes "--store=a" ∷ codes "--site=65535" ∷ [])) ≡ Some (codes "a") }
    ensures layout { named_value (codes "layout") (called_with (codes "site" ∷ codes "--store=a" ∷ codes "--layout=b" ∷ codes "--site=0" ∷ [])) ≡ Some (codes "b") }
    ensures no_error { fault_of program (called_with (codes "site" ∷ codes "--site" ∷ codes "0" ∷ codes "--store" ∷ codes "a" ∷ [])) ≡ [] }
    ensures no_site { fault_of program (called_with (codes "site" ∷ codes "--store" ∷ codes "a" ∷ [])) ≡ MissingRequiredArgument ∷ [] }
    ensures no_store { fault_of program (called_with (codes "site" ∷ codes "--site" ∷ codes "0" ∷ [])) ≡ MissingRequiredArgument ∷ [] }
    ensures no_number { fault_of program (called_with (codes "site" ∷ codes "--site" ∷ codes "x" ∷ codes "--store" ∷ codes "a" ∷ [])) ≡ ValueValidation ∷ [] }
    ensures too_great { fault_of program (called_with (codes "site" ∷ codes "--site" ∷ codes "65536" ∷ codes "--store" ∷ codes "a" ∷ [])) ≡ ValueValidation ∷ [] }
    ensures two_sites { fault_of program (called_with (codes "site" ∷ codes "--site=0" ∷ codes "--site=1" ∷ codes "--store=a" ∷ [])) ≡ ArgumentConflict ∷ [] }
    ensures two_stores { fault_of program (called_with (codes "site" ∷ codes "--site=0" ∷ codes "--store=a" ∷ codes "--store=b" ∷ [])) ≡ ArgumentConflict ∷ [] }
    ensures stray_argument { fault_of program (called_with (codes "site" ∷ codes "--site=0" ∷ codes "--store=a" ∷ codes "b" ∷ [])) ≡ UnknownArgument ∷ [] }
    ensures store_of_play { fault_of program (called_with (codes "play" ∷ codes "--store=a" ∷ [])) ≡ UnknownArgument ∷ [] }
{}

/// The same of the command `serve`: the site and its store, which are needed; whether the store is made, or grows; how
/// long to wait for it; how many calls are committed together; the name of the site's group, or whether deltas travel without
/// a mark; and the file for the site's log.
#[tactic(auto, unfolding(clap::proofs::OnLiterals::clap_on_literals))]
pub fn serve_arguments_read()
    ensures plain { named_command (called_with (codes "serve" ∷ codes "--site=1" ∷ codes "--store=a" ∷ [])) ≡ Serve (serving 1 false false false 0 1) }
    ensures created { named_command (called_with (codes "serve" ∷ codes "--create" ∷ codes "--store=a" ∷ codes "--site=0" ∷ [])) ≡ Serve (serving 0 true false false 0 1) }
    ensures grown { named_command (called_with (codes "serve" ∷ codes "--grow" ∷ codes "--store=a" ∷ codes "--site=0" ∷ [])) ≡ Serve (serving 0 false true false 0 1) }
    ensures unmarked { named_command (called_with (codes "serve" ∷ codes "--plain" ∷ codes "--store=a" ∷ codes "--site=0" ∷ [])) ≡ Serve (serving 0 false false true 0 1) }
    ensures waits { named_command (called_with (codes "serve" ∷ codes "--wait" ∷ codes "30" ∷ codes "--store=a" ∷ codes "--site=0" ∷ [])) ≡ Serve (serving 0 false false false 30 1) }
    ensures together { named_command (called_with (codes "serve" ∷ codes "--together" ∷ codes "32" ∷ codes "--store=a" ∷ codes "--site=0" ∷ [])) ≡ Serve (serving 0 false false false 0 32) }
    ensures most_together { named_command (called_with (codes "serve" ∷ codes "--together=256" ∷ codes "--store=a" ∷ codes "--site=0" ∷ [])) ≡ Serve (serving 0 false false false 0 256) }
    ensures store { named_value (codes "store") (called_with (codes "serve" ∷ codes "--site=1" ∷ codes "--store" ∷ codes "a" ∷ [])) ≡ Some (codes "a") }
    ensures log { named_value (codes "log") (called_with (codes "serve" ∷ codes "--site=1" ∷ codes "--store=a" ∷ codes "--log=b" ∷ [])) ≡ Some (codes "b") }
    ensures no_log { named_value (codes "log") (called_with (codes "serve" ∷ codes "--site=1" ∷ codes "--store=a" ∷ [])) ≡ None }
    ensures group { named_value (codes "group") (called_with (codes "serve" ∷ codes "--site=1" ∷ codes "--store=a" ∷ codes "--group=b" ∷ [])) ≡ Some (codes "b") }
    ensures no_error { fault_of program (called_with (codes "serve" ∷ codes "--site=1" ∷ codes "--store=a" ∷ codes "--create" ∷ codes "--wait=1" ∷ [])) ≡ [] }
    ensures no_store { fault_of program (called_with (codes "serve" ∷ codes "--site=1" ∷ [])) ≡ MissingRequiredArgument ∷ [] }
    ensures bad_wait { fault_of program (called_with (codes "serve" ∷ codes "--site=1" ∷ codes "--store=a" ∷ codes "--wait=-1" ∷ [])) ≡ ValueValidation ∷ [] }
    ensures none_together { fault_of program (called_with (codes "serve" ∷ codes "--site=1" ∷ codes "--store=a" ∷ codes "--together=0" ∷ [])) ≡ ValueValidation ∷ [] }
    ensures too_many_together { fault_of program (called_with (codes "serve" ∷ codes "--site=1" ∷ codes "--store=a" ∷ codes "--together=257" ∷ [])) ≡ ValueValidation ∷ [] }
    ensures together_of_ask { fault_of program (called_with (codes "ask" ∷ codes "--site=1" ∷ codes "--store=a" ∷ codes "--together=2" ∷ codes "send" ∷ [])) ≡ UnknownArgument ∷ [] }
    ensures stray_word { fault_of program (called_with (codes "serve" ∷ codes "--site=1" ∷ codes "--store=a" ∷ codes "b" ∷ [])) ≡ UnknownArgument ∷ [] }
    ensures two_groups { fault_of program (called_with (codes "serve" ∷ codes "--site=1" ∷ codes "--store=a" ∷ codes "--group=b" ∷ codes "--group=c" ∷ [])) ≡ ArgumentConflict ∷ [] }
    ensures create_of_site { fault_of program (called_with (codes "site" ∷ codes "--site=1" ∷ codes "--store=a" ∷ codes "--create" ∷ [])) ≡ UnknownArgument ∷ [] }
{}

/// The same of the command `ask`: one to four words behind the options.
#[tactic(auto, unfolding(clap::proofs::OnLiterals::clap_on_literals))]
pub fn ask_arguments_read()
    ensures plain { named_command (called_with (codes "ask" ∷ codes "--site=1" ∷ codes "--store=a" ∷ codes "send" ∷ [])) ≡ Ask (serving 1 false false false 0 1) }
    ensures one { asked_words (called_with (codes "ask" ∷ codes "--site=1" ∷ codes "--store=a" ∷ codes "send" ∷ [])) ≡ said (Some (codes "send")) None None None }
    ensures three { asked_words (called_with (codes "ask" ∷ codes "--site=1" ∷ codes "--store=a" ∷ codes "read" ∷ codes "a" ∷ codes "7" ∷ []))
        ≡ said (Some (codes "read")) (Some (codes "a")) (Some (codes "7")) None }
    ensures four { asked_words (called_with (codes "ask" ∷ codes "--site=1" ∷ codes "--store=a" ∷ codes "give" ∷ codes "a" ∷ codes "1" ∷ codes "2" ∷ []))
        ≡ said (Some (codes "give")) (Some (codes "a")) (Some (codes "1")) (Some (codes "2")) }
    ensures no_error { fault_of program (called_with (codes "ask" ∷ codes "--site=1" ∷ codes "--store=a" ∷ codes "--wait=5" ∷ codes "help" ∷ codes "a" ∷ [])) ≡ [] }
    ensures group { named_value (codes "group") (called_with (codes "ask" ∷ codes "--site=1" ∷ codes "--store=a" ∷ codes "--group=b" ∷ codes "send" ∷ [])) ≡ Some (codes "b") }
    ensures no_word { fault_of program (called_with (codes "ask" ∷ codes "--site=1" ∷ codes "--store=a" ∷ [])) ≡ MissingRequiredArgument ∷ [] }
    ensures five_words { fault_of program (called_with (codes "ask" ∷ codes "--site=1" ∷ codes "--store=a" ∷ codes "give" ∷ codes "a" ∷ codes "1" ∷ codes "2" ∷ codes "3" ∷ []))
        ≡ UnknownArgument ∷ [] }
{}

/// The same of the commands `regroup` and `rebuild`: the site, its store and its group, which are needed; the layout file;
/// and the other sites that are lost.
#[tactic(auto, unfolding(clap::proofs::OnLiterals::clap_on_literals))]
pub fn regroup_arguments_read()
    ensures plain { named_command (called_with (codes "regroup" ∷ codes "--site=1" ∷ codes "--store=a" ∷ codes "--group=b" ∷ [])) ≡ Regroup 1 }
    ensures store { named_value (codes "store") (called_with (codes "regroup" ∷ codes "--site=1" ∷ codes "--store" ∷ codes "a" ∷ codes "--group=b" ∷ [])) ≡ Some (codes "a") }
    ensures group { named_value (codes "group") (called_with (codes "regroup" ∷ codes "--site=1" ∷ codes "--store=a" ∷ codes "--group=b" ∷ [])) ≡ Some (codes "b") }
    ensures no_group { fault_of program (called_with (codes "regroup" ∷ codes "--site=1" ∷ codes "--store=a" ∷ [])) ≡ MissingRequiredArgument ∷ [] }
    ensures lost_of_regroup { fault_of program (called_with (codes "regroup" ∷ codes "--site=1" ∷ codes "--store=a" ∷ codes "--group=b" ∷ codes "--lost=0" ∷ [])) ≡ UnknownArgument ∷ [] }
    ensures rebuilt { named_command (called_with (codes "rebuild" ∷ codes "--site=1" ∷ codes "--store=a" ∷ codes "--group=b.2" ∷ [])) ≡ Rebuild 1 }
    ensures none_lost { asked_lost (called_with (codes "rebuild" ∷ codes "--site=1" ∷ codes "--store=a" ∷ codes "--group=b.2" ∷ [])) ≡ [] }
    ensures two_lost { asked_lost (called_with (codes "rebuild" ∷ codes "--site=1" ∷ codes "--lost" ∷ codes "0" ∷ codes "--store=a" ∷ codes "--lost=2" ∷ codes "--group=b.2" ∷ [])) ≡ 0 ∷ 2 ∷ [] }
    ensures no_error { fault_of program (called_with (codes "rebuild" ∷ codes "--site=1" ∷ codes "--lost=0" ∷ codes "--store=a" ∷ codes "--lost=2" ∷ codes "--group=b.2" ∷ [])) ≡ [] }
    ensures no_name { fault_of program (called_with (codes "rebuild" ∷ codes "--site=1" ∷ codes "--store=a" ∷ [])) ≡ MissingRequiredArgument ∷ [] }
    ensures no_number { fault_of program (called_with (codes "rebuild" ∷ codes "--site=1" ∷ codes "--lost=x" ∷ codes "--store=a" ∷ codes "--group=b.2" ∷ [])) ≡ ValueValidation ∷ [] }
    ensures create_of_rebuild { fault_of program (called_with (codes "rebuild" ∷ codes "--site=1" ∷ codes "--store=a" ∷ codes "--group=b.2" ∷ codes "--create" ∷ [])) ≡ UnknownArgument ∷ [] }
{}

/// The same of the command `judge`: the word for a cut, the layout file, and files of logs.
#[tactic(auto, unfolding(clap::proofs::OnLiterals::clap_on_literals))]
pub fn judge_arguments_read()
    ensures plain { named_command (called_with (codes "judge" ∷ [])) ≡ Judge }
    ensures no_cut { named_value (codes "cut") (called_with (codes "judge" ∷ [])) ≡ None }
    ensures cut { named_value (codes "cut") (called_with (codes "judge" ∷ codes "--cut" ∷ codes "1,0" ∷ [])) ≡ Some (codes "1,0") }
    ensures behind_equals { named_value (codes "cut") (called_with (codes "judge" ∷ codes "--layout=a" ∷ codes "--cut=full" ∷ [])) ≡ Some (codes "full") }
    ensures layout { named_value (codes "layout") (called_with (codes "judge" ∷ codes "--layout=a" ∷ codes "--cut=full" ∷ [])) ≡ Some (codes "a") }
    ensures no_error { fault_of program (called_with (codes "judge" ∷ codes "--cut=x" ∷ [])) ≡ [] }
    ensures missing_value { fault_of program (called_with (codes "judge" ∷ codes "--cut" ∷ [])) ≡ InvalidValue ∷ [] }
    ensures two_cuts { fault_of program (called_with (codes "judge" ∷ codes "--cut=1" ∷ codes "--cut=2" ∷ [])) ≡ ArgumentConflict ∷ [] }
    ensures no_logs { asked_logs (called_with (codes "judge" ∷ [])) ≡ [] }
    ensures logs { asked_logs (called_with (codes "judge" ∷ codes "--logs" ∷ codes "b" ∷ codes "a" ∷ codes "--cut=1" ∷ [])) ≡ codes "b" ∷ codes "a" ∷ [] }
    ensures more_logs { asked_logs (called_with (codes "judge" ∷ codes "--logs=b" ∷ codes "--layout=c" ∷ codes "--logs" ∷ codes "a" ∷ [])) ≡ codes "b" ∷ codes "a" ∷ [] }
    ensures logs_without_file { fault_of program (called_with (codes "judge" ∷ codes "--logs" ∷ [])) ≡ InvalidValue ∷ [] }
    ensures stray_file { fault_of program (called_with (codes "judge" ∷ codes "a" ∷ [])) ≡ UnknownArgument ∷ [] }
    ensures logs_of_run { fault_of program (called_with (codes "run" ∷ codes "--logs=a" ∷ [])) ≡ UnknownArgument ∷ [] }
    ensures cut_of_join { fault_of program (called_with (codes "join" ∷ codes "--cut=1" ∷ [])) ≡ UnknownArgument ∷ [] }
{}

/// The same of the command `run`: how many turns links have, the file for closed logs, and the layout file.
#[tactic(auto, unfolding(clap::proofs::OnLiterals::clap_on_literals))]
pub fn run_arguments_read()
    ensures plain { named_command (called_with (codes "run" ∷ [])) ≡ Run 100 }
    ensures turns { named_command (called_with (codes "run" ∷ codes "--turns" ∷ codes "7" ∷ [])) ≡ Run 7 }
    ensures most_turns { named_command (called_with (codes "run" ∷ codes "--out=a" ∷ codes "--turns=1000" ∷ [])) ≡ Run 1000 }
    ensures out { named_value (codes "out") (called_with (codes "run" ∷ codes "--out" ∷ codes "a" ∷ [])) ≡ Some (codes "a") }
    ensures layout { named_value (codes "layout") (called_with (codes "run" ∷ codes "--out=a" ∷ codes "--layout=b" ∷ [])) ≡ Some (codes "b") }
    ensures no_error { fault_of program (called_with (codes "run" ∷ codes "--turns=1" ∷ codes "--out=a" ∷ [])) ≡ [] }
    ensures no_turn { fault_of program (called_with (codes "run" ∷ codes "--turns" ∷ codes "0" ∷ [])) ≡ ValueValidation ∷ [] }
    ensures too_many_turns { fault_of program (called_with (codes "run" ∷ codes "--turns=1001" ∷ [])) ≡ ValueValidation ∷ [] }
    ensures no_number { fault_of program (called_with (codes "run" ∷ codes "--turns=x" ∷ [])) ≡ ValueValidation ∷ [] }
    ensures missing_number { fault_of program (called_with (codes "run" ∷ codes "--turns" ∷ [])) ≡ InvalidValue ∷ [] }
    ensures two_files { fault_of program (called_with (codes "run" ∷ codes "--out=a" ∷ codes "--out=b" ∷ [])) ≡ ArgumentConflict ∷ [] }
    ensures out_of_judge { fault_of program (called_with (codes "judge" ∷ codes "--out=a" ∷ [])) ≡ UnknownArgument ∷ [] }
{}
