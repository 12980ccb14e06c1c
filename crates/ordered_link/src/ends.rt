ghost use Rattle.std.specs.Prelude.{◌≡◌, ◌≤◌, ◌⊎◌, true, false, ℕ, List, [], ◌∷◌, ◌++◌, ◌||◌, if◌then◌else◌, length, string_bytes, IfOk, IfSome, IfNone, None};
ghost use Rattle.crossbeam_channel.specs.Claims.{IsSeatAt};
ghost use Rattle.crossbeam_channel.specs.Ends.{sends_on, receives_on, ruled_capacity};
ghost use Rattle.ordered_link.specs.Rule.{link_capacity};
ghost use Rattle.ordered_link.specs.Ends.{MayPut, MayTake, ended_by, finished_by, is_finished, late_by, link_of, put_by, taken_by, texts_of};

use crate::rule::{Log, Order, Parcel, PutStep, Roles, TakeStep, Total};
use crossbeam_channel::{Pass, RuledReceiver, RuledSender, bounded_with};
use std::alloc::{AllocError, Global};
use std::marker::Model;
use std::sync::Wait;

/// The end of a link at which texts are put.
#[derive(Drop)]
pub struct Putter {
    sender: RuledSender<Parcel, Log, Order>,
    pass: Pass<Parcel, Log>,
    closed: bool,
}

// Contracts see which link it is, how much it holds, and what was put.
impl Model for Putter {
    ghost use Rattle.std.specs.Prelude.{◌≡◌};
    ghost use Rattle.crossbeam_channel.specs.Claims.{IsSeatAt};
    ghost use Rattle.crossbeam_channel.specs.Ends.{sends_on, ruled_capacity};
    ghost use Rattle.ordered_link.specs.Rule.{link_capacity};
    ghost use Rattle.ordered_link.specs.Ends.{PutterState, MayPut, finished_by, late_by, link_of, put_by};

    ghost Value = { PutterState };

    ghost view = { λ p. record { link = link_of p.pass; capacity = ruled_capacity (sends_on p.sender); put = put_by p.pass; finished = finished_by p.pass; late = late_by p.pass; closed = p.closed } };

    ghost invariant = { λ p. IsSeatAt (sends_on p.sender) p.pass × MayPut p.pass × (ruled_capacity (sends_on p.sender) ≡ link_capacity) };
}

/// The end of a link at which texts are taken. It may be closed; then it still knows what was taken.
#[derive(Drop)]
pub struct Taker {
    receiver: Option<RuledReceiver<Parcel, Log, Order>>,
    pass: Pass<Parcel, Log>,
    finished: bool,
    ended: bool,
}

// Contracts see which link it is, what was taken, whether that was all, and whether it has a receiver.
impl Model for Taker {
    ghost use Rattle.std.specs.Prelude.{◌≡◌, [], IfSome, is_some};
    ghost use Rattle.crossbeam_channel.specs.Claims.{IsSeatAt};
    ghost use Rattle.crossbeam_channel.specs.Ends.{receives_on};
    ghost use Rattle.ordered_link.specs.Ends.{TakerState, MayTake, ended_by, link_of, taken_by};

    ghost Value = { TakerState };

    ghost view = { λ t. record { link = link_of t.pass; taken = taken_by t.pass; finished = t.finished; ended = t.ended; receives = is_some t.receiver } };

    ghost invariant = { λ t. IfSome t.receiver (λ r. IsSeatAt (receives_on r) t.pass) × (t.pass.me.1 ≡ []) × MayTake t.pass × (t.finished ≡ ended_by t.pass) };
}

/// How many parcels a link holds.
pub const LINK_CAPACITY: usize = 16;

/// A link that holds at most 16 texts.
pub fn make_link(alloc: Global) -> Result<(Putter, Taker), AllocError>
    ensures new { IfOk result (λ ends. (ends.0.link ≡ ends.1.link) × (ends.0.put ≡ []) × (ends.1.taken ≡ [])) }
    ensures capacity { IfOk result (λ ends. ends.0.capacity ≡ link_capacity) }
    ensures unfinished { IfOk result (λ ends. ends.0.finished ≡ false) }
    ensures none_late { IfOk result (λ ends. ends.0.late ≡ []) }
    ensures not_all { IfOk result (λ ends. ends.1.finished ≡ false) }
    ensures receives { IfOk result (λ ends. ends.1.receives ≡ true) }
    ensures ended { IfOk result (λ ends. ends.1.ended ≡ false) }
    ensures closed { IfOk result (λ ends. ends.0.closed ≡ false) }
{
    let (sender, receiver, mut pass) = bounded_with::<Parcel, Log, Order, Global>(
        alloc,
        LINK_CAPACITY,
    )?;
    let other = sender.another::<Roles>(&mut pass);
    Ok((
        Putter {
            sender,
            pass,
            closed: false,
        },
        Taker {
            receiver: Some(receiver),
            pass: other,
            finished: false,
            ended: false,
        },
    ))
}

// Puts a parcel; whether that succeeded.
fn send<R: Wait>(
    rt: &R,
    sender: &RuledSender<Parcel, Log, Order>,
    pass: &mut Pass<Parcel, Log>,
    parcel: Parcel,
) -> bool
    requires seat { IsSeatAt (sends_on sender.now) pass.old }
    requires role { MayPut pass.old }
    requires capacity { ruled_capacity (sends_on sender.now) ≡ link_capacity }
    ensures seat { IsSeatAt (sends_on sender.now) pass.new }
    ensures link { link_of pass.new ≡ link_of pass.old }
    ensures role { MayPut pass.new }
    ensures put { put_by pass.new ≡ (if result then put_by pass.old ++ texts_of (parcel ∷ []) else put_by pass.old) }
    ensures finished { finished_by pass.new ≡ (if result then finished_by pass.old || is_finished (parcel ∷ []) else finished_by pass.old) }
    ensures late { late_by pass.new ≡ (if result then late_by pass.old ++ (if finished_by pass.old then texts_of (parcel ∷ []) else []) else late_by pass.old) }
{
    match sender.send_as::<PutStep, R>(rt, pass, parcel) {
        Ok(()) => true,
        Err(_) => false,
    }
}

impl Putter {
    /// Puts a text, and waits while the link is full. Where the other end is closed the text is lost, and the answer is
    /// `false`. Takes no memory. May wait.
    pub fn put<R: Wait>(&mut self, rt: &R, text: String) -> bool
        ensures link { self.new.link ≡ self.old.link }
        ensures capacity { self.new.capacity ≡ self.old.capacity }
        ensures finished { self.new.finished ≡ self.old.finished }
        ensures put { self.new.put ≡ (if result then self.old.put ++ string_bytes text ∷ [] else self.old.put) }
        ensures late { self.old.finished ≡ false → self.new.late ≡ self.old.late }
        ensures closed { result ≡ false → self.new.closed ≡ true }
        ensures open { result ≡ true → self.new.closed ≡ self.old.closed }
    {
        let done = send(rt, &self.sender, &mut self.pass, Parcel::Text(text));
        if !done {
            self.closed = true;
        }
        done
    }

    /// Tells the taker that no text will follow, unless a put found the other end closed. May wait.
    pub fn finish<R: Wait>(&mut self, rt: &R)
        ensures link { self.new.link ≡ self.old.link }
        ensures capacity { self.new.capacity ≡ self.old.capacity }
        ensures put { self.new.put ≡ self.old.put }
        ensures late { self.new.late ≡ self.old.late }
        ensures finished { (self.new.finished ≡ true) ⊎ (self.new.closed ≡ true) }
        ensures done { self.new.finished ≡ true → self.old.closed ≡ false → self.old.finished ≡ false → self.new.closed ≡ false }
        ensures stays_finished { self.old.finished ≡ true → self.new.finished ≡ true }
        ensures stays_closed { self.old.closed ≡ true → self.new ≡ self.old }
    {
        if self.closed {
            return;
        }
        if !send(rt, &self.sender, &mut self.pass, Parcel::Last) {
            self.closed = true;
        }
    }

    /// A law of the link, once both ends are in one thread again: what was taken is a prefix of what was put, and at most 16
    /// texts were put that were not taken. Where the word that no text will follow was taken, all texts were that were put
    /// before it.
    pub fn learn_prefix(&mut self, taker: Taker)
        requires link { taker.link ≡ self.old.link }
        ensures same { self.new ≡ self.old }
        ensures prefix { (rest : List (List ℕ)) × (self.new.put ≡ taker.taken ++ rest) × (length rest ≤ link_capacity)
            × (taker.finished ≡ true → (self.new.finished ≡ true) × (self.new.late ≡ [] → rest ≡ [])) }
    {
        let Taker {
            receiver: _,
            pass,
            finished: _,
            ended: _,
        } = taker;
        self.sender.absorb::<Roles>(&mut self.pass, pass);
        self.sender.learn_as::<Total>(&mut self.pass);
    }
}

// Takes the next parcel of a channel.
fn take_parcel<R: Wait>(
    rt: &R,
    receiver: &RuledReceiver<Parcel, Log, Order>,
    pass: &mut Pass<Parcel, Log>,
) -> Option<Parcel>
    requires seat { IsSeatAt (receives_on receiver.now) pass.old }
    requires role { MayTake pass.old }
    ensures seat { IsSeatAt (receives_on receiver.now) pass.new }
    ensures link { link_of pass.new ≡ link_of pass.old }
    ensures role { MayTake pass.new }
    ensures taken { IfSome result (λ parcel. taken_by pass.new ≡ taken_by pass.old ++ texts_of (parcel ∷ [])) }
    ensures ended { IfSome result (λ parcel. ended_by pass.new ≡ (ended_by pass.old || is_finished (parcel ∷ []))) }
    ensures none { IfNone result ((taken_by pass.new ≡ taken_by pass.old) × (ended_by pass.new ≡ ended_by pass.old)) }
{
    match receiver.recv_as::<TakeStep, R>(rt, pass) {
        Ok(parcel) => Some(parcel),
        Err(_) => None,
    }
}

impl Taker {
    /// Takes the next text, and waits while there is none. `None` where none will come, which closes this end, or where this
    /// end is closed, which then stays as it is. May wait.
    pub fn take<R: Wait>(&mut self, rt: &R) -> Option<String>
        ensures link { self.new.link ≡ self.old.link }
        ensures taken { IfSome result (λ text. self.new.taken ≡ self.old.taken ++ string_bytes text ∷ []) }
        ensures none { IfNone result (self.new.taken ≡ self.old.taken) }
        ensures open { IfSome result (λ _. (self.new.ended ≡ self.old.ended) × (self.new.receives ≡ self.old.receives)) }
        ensures finished { IfSome result (λ _. self.new.finished ≡ self.old.finished) }
        ensures stays_finished { self.old.finished ≡ true → self.new.finished ≡ true }
        ensures ended { IfNone result (self.old.receives ≡ true → self.new.ended ≡ true) }
        ensures closed { IfNone result (self.new.receives ≡ false) }
        ensures gone { IfNone result (self.old.receives ≡ true → self.new.finished ≡ self.old.finished → self.new ≡ record self.old { ended = true; receives = false }) }
        ensures was_closed { self.old.receives ≡ false → (result ≡ None) × (self.new ≡ self.old) }
    {
        let Some(receiver) = &self.receiver else {
            return None;
        };
        match take_parcel(rt, receiver, &mut self.pass) {
            Some(Parcel::Text(text)) => return Some(text),
            Some(Parcel::Last) => self.finished = true,
            None => {}
        }
        self.ended = true;
        self.close();
        None
    }

    /// Whether the word that no text will follow was taken. Where `take` answered `None` without it, this end was closed, or
    /// the other end is gone.
    pub fn is_finished(&self) -> bool
        ensures { result ≡ self.now.finished }
    {
        self.finished
    }

    /// Closes this end, so that a putter that waits gets its text back.
    pub fn close(&mut self)
        ensures { self.new ≡ record self.old { receives = false } }
    {
        self.receiver = None;
    }
}
