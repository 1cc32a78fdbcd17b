//! Queues between threads whose items are all of one book.
ghost use Rattle.std.specs.Prelude.{◌≡◌, ◌<◌, IfOk, IfSome, OnOk, IfErr};
ghost use Rattle.shared_table.specs.Chutes.{IsChute};

use crate::rule::{Mark, Notes};
use crossbeam_queue::protocol::{Lesson, Outcome, Protocol};
use crossbeam_queue::{Pass, RuledArrayQueue};
use node_books::Token;
use std::alloc::{AllocError, Global};
use std::marker::Model;
use std::sync::{Arc, Wait};

/// What is of the book of some node.
pub trait Booked: Drop {
    ghost use Rattle.shared_table.specs.Rule.{Token as AnyToken};

    ghost token: { Self → AnyToken };
}

/// What lies in a chute is of the book that all know who use it.
pub struct Same;

impl<T: Booked> Protocol<T, Mark> for Same {
    ghost use Rattle.std.specs.Prelude.{None};
    ghost use Rattle.shared_table.specs.Chutes.{Lies};

    ghost holds = { Lies T.token };

    ghost first = { None };
}

/// Something is put.
pub(crate) struct Puts;

impl<T: Booked> Outcome<T, Mark> for Puts {
    ghost use Rattle.std.specs.Prelude.{◌≡◌};
    ghost use Rattle.shared_table.specs.Chutes.{Stays};

    ghost then = { λ v x w. Stays T.token v x w };
}

impl<T: Booked> Lesson<T, Mark> for Puts {
    ghost fact = { λ v items. Unit {0} };
}

/// Something is taken.
pub(crate) struct Takes;

impl<T: Booked> Outcome<T, Mark> for Takes {
    ghost use Rattle.shared_table.specs.Chutes.{Gives};

    ghost then = { λ v x w. Gives T.token v x w };
}

impl<T: Booked> Lesson<T, Mark> for Takes {
    ghost fact = { λ v items. Unit {0} };
}

type Queue<T> = RuledArrayQueue<T, Mark, Same>;

/// One thread's way to a queue. Contracts see the book that its items are of, and the moments of it that all know who use the queue.
#[derive(Drop)]
pub struct Chute<T: Booked> {
    queue: Arc<Queue<T>, Global>,
    pass: Pass<T, Mark>,
    origin: Token,
}

impl<T: Booked> Model for Chute<T> {
    ghost use Rattle.node_books.specs.Books.{Known};
    ghost use Rattle.shared_table.specs.Chutes.{IsChute};

    ghost Value = { Known };

    ghost view = { λ c. record { book = c.origin.book; log = c.origin.log } };

    ghost invariant = { λ c. IsChute c.queue.value c.pass c.origin };
}

impl<T: Booked> Chute<T> {
    /// A queue with room for so many items, of the book of its first item, of which this much is known.
    pub fn open(alloc: Global, room: usize, item: T, origin: Token) -> Result<Self, AllocError>
        requires room { 0 < room }
        requires stamped { (T.token item).book ≡ origin.book }
        ensures { IfOk result (λ chute. chute ≡ record { book = origin.book; log = origin.log }) }
    {
        let (queue, mut pass): (Queue<T>, Pass<T, Mark>) = Queue::ruled(alloc, room)?;
        if queue.try_push_as::<Puts>(&mut pass, item).is_err() {
            return Err(AllocError);
        }
        let queue = Arc::new(alloc, queue)?;
        Ok(Chute {
            queue,
            pass,
            origin,
        })
    }

    /// One more way to the same queue.
    pub fn another(&mut self) -> Result<Self, AllocError>
        ensures same { self.new ≡ self.old }
        ensures another { IfOk result (λ chute. chute ≡ self.old) }
    {
        let queue = Arc::try_clone(&self.queue)?;
        let pass = queue.another::<Notes>(&mut self.pass);
        Ok(Chute {
            queue,
            pass,
            origin: self.origin.again(),
        })
    }

    /// What all know who use it.
    pub fn token(&self) -> Token
        ensures book { result.book ≡ self.now.book }
        ensures log { result.log ≡ self.now.log }
    {
        self.origin.again()
    }

    /// Puts an item last. It comes back where there is no room, or another thread is in the way.
    pub fn put(&mut self, item: T) -> Result<(), T>
        requires { (T.token item).book ≡ self.old.book }
        ensures same { self.new ≡ self.old }
        ensures back { IfErr result (λ x. x ≡ item) }
    {
        self.queue.try_push_as::<Puts>(&mut self.pass, item)
    }

    /// Takes the oldest item, unless there is none, or another thread is in the way.
    pub fn take(&mut self) -> Option<T>
        ensures same { self.new ≡ self.old }
        ensures stamped { IfSome result (λ x. (T.token x).book ≡ self.old.book) }
    {
        self.queue.try_pop_as::<Takes>(&mut self.pass)
    }
    /// Puts an item last. It comes back where there is no room. It waits for a thread that is in the way.
    pub fn push<R: Wait>(&mut self, rt: &R, item: T) -> Result<(), T>
        requires { (T.token item).book ≡ self.old.book }
        ensures same { self.new ≡ self.old }
        ensures back { IfErr result (λ x. x ≡ item) }
    {
        self.queue.push_as::<Puts, R>(rt, &mut self.pass, item)
    }

    /// Takes the oldest item, unless there is none. It waits for a thread that is in the way.
    pub fn pop<R: Wait>(&mut self, rt: &R) -> Option<T>
        ensures same { self.new ≡ self.old }
        ensures stamped { IfSome result (λ x. (T.token x).book ≡ self.old.book) }
    {
        self.queue.pop_as::<Takes, R>(rt, &mut self.pass)
    }
}
