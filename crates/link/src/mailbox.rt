//! Inboxes between threads: one receiver, any number of senders, and a rule that ties what is taken to what was put.
ghost use Rattle.std.specs.Prelude.{◌≡◌, true};
ghost use Rattle.crossbeam_channel.specs.Claims.{view, IsSeatAt};
ghost use Rattle.crossbeam_channel.specs.Ends.{sends_on, receives_on};

mod rule;
mod whole;

use crate::faults::{LinkFault, Unsent};
use crossbeam_channel::{Pass, RuledReceiver, RuledSender};
pub use rule::Sourced;
use rule::{Gets, Hand, InOrder, Makes, Puts};
use std::alloc::AllocError;
use std::sync::Wait;
pub use whole::{compare, open};

type Sender<T> = RuledSender<T, Hand<T>, InOrder>;

type Receiver<T> = RuledReceiver<T, Hand<T>, InOrder>;

/// Makes the ports of one inbox.
#[derive(Drop)]
pub struct Root<T: Sourced + Drop> {
    end: Sender<T>,
    pass: Pass<T, Hand<T>>,
    made: u64,
    ghost seated: { IsSeatAt (sends_on end) pass },
    ghost role: { (view pass).makes ≡ true },
    ghost count: { (view pass).made ≡ made },
}

/// One sender's way into an inbox.
#[derive(Drop)]
pub struct Port<T: Sourced + Drop> {
    end: Sender<T>,
    pass: Pass<T, Hand<T>>,
    number: u64,
    ghost seated: { IsSeatAt (sends_on end) pass },
    ghost role: { (view pass).sends ≡ true },
    ghost own: { (view pass).from ≡ number },
}

/// The one receiver of an inbox.
#[derive(Drop)]
pub struct Mailbox<T: Sourced + Drop> {
    end: Receiver<T>,
    pass: Pass<T, Hand<T>>,
    ghost seated: { IsSeatAt (receives_on end) pass },
    ghost role: { (view pass).gets ≡ true },
}

impl<T: Sourced + Drop> Root<T> {
    ghost use Rattle.std.specs.Prelude.{◌≡◌, ◌+◌, ◌<◌, ◌^◌, [], IfOk, OnOk, OnErr};
    ghost use Rattle.crossbeam_channel.specs.Claims.{view, IsSeatAt};
    ghost use Rattle.crossbeam_channel.specs.Ends.{sends_on};
    ghost use Rattle.link.specs.Rule.{newcomer};
    ghost use Rattle.link.specs.Mailboxes.{put, number_of, made_of, root_room, port_room};

    /// How many ports were made.
    pub fn made(&self) -> u64
        ensures { result ≡ made_of self.now }
    {
        self.made
    }

    /// A new sender's port, with the next number.
    pub fn port(&mut self) -> Result<Port<T>, AllocError>
        requires { made_of self.old + 1 < 2 ^ 64 }
        ensures number { IfOk result (λ port. number_of port ≡ made_of self.old) }
        ensures empty { IfOk result (λ port. put port ≡ []) }
        ensures port_room { IfOk result (λ port. port_room port ≡ root_room self.old) }
        ensures made { OnOk result (made_of self.new ≡ made_of self.old + 1) }
        ensures unmade { OnErr result (made_of self.new ≡ made_of self.old) }
        ensures room { root_room self.new ≡ root_room self.old }
    {
        let end = self.end.try_clone()?;
        let number = self.made;
        let pass = self.pass();
        Ok(Port { end, pass, number })
    }

    /// A new sender's pass.
    fn pass(&mut self) -> Pass<T, Hand<T>>
        requires { self.old.made + 1 < 2 ^ 64 }
        ensures seated { IsSeatAt (sends_on self.old.end) result }
        ensures view { view result ≡ newcomer self.old.made }
        ensures made { self.new.made ≡ self.old.made + 1 }
        ensures end { self.new.end ≡ self.old.end }
    {
        let Root { end, pass, made } = self;
        let new = end.another::<Makes>(pass);
        *made += 1;
        new
    }
}

impl<T: Sourced + Drop> Port<T> {
    ghost use Rattle.std.specs.Prelude.{◌≡◌, [], ◌∷◌, ◌++◌, OnOk, OnErr, IfErr};
    ghost use Rattle.link.specs.declared.faults.LinkFault.TheVariants.{Full};
    ghost use Rattle.link.specs.Mailboxes.{put, number_of, port_room};

    /// The sender's number: how many ports were made before it.
    pub fn number(&self) -> u64
        ensures { result ≡ number_of self.now }
    {
        self.number
    }

    /// Puts an item last, or hands it back: where there is no room, or the receiver has gone.
    pub fn send<R: Wait>(&mut self, rt: &R, item: T) -> Result<(), Unsent<T>>
        requires { T.source item ≡ number_of self.old }
        ensures put { OnOk result (put self.new ≡ put self.old ++ item ∷ []) }
        ensures unchanged { OnErr result (put self.new ≡ put self.old) }
        ensures err { IfErr result (λ unsent. unsent ≡ record { fault = Full; letter = item }) }
        ensures number { number_of self.new ≡ number_of self.old }
        ensures room { port_room self.new ≡ port_room self.old }
    {
        let Port { end, pass, .. } = self;
        match end.try_send_as::<Puts, R>(rt, pass, item) {
            Ok(()) => Ok(()),
            Err(refused) => Err(Unsent {
                fault: LinkFault::Full,
                letter: refused.into_inner(),
            }),
        }
    }
}

impl<T: Sourced + Drop> Mailbox<T> {
    ghost use Rattle.std.specs.Prelude.{◌≡◌, [], ◌∷◌, ◌++◌, IfSome, IfNone};
    ghost use Rattle.link.specs.Mailboxes.{taken, mailbox_room};

    /// Takes the oldest item, if it finds any.
    pub fn take<R: Wait>(&mut self, rt: &R) -> Option<T>
        ensures some { IfSome result (λ item. taken self.new ≡ taken self.old ++ item ∷ []) }
        ensures none { IfNone result (taken self.new ≡ taken self.old) }
        ensures room { mailbox_room self.new ≡ mailbox_room self.old }
    {
        let Mailbox { end, pass, .. } = self;
        end.try_recv_as::<Gets, R>(rt, pass).ok()
    }
}
