//! The thread that serves one connection after another.
ghost use Rattle.std.specs.Io.Buffered.{reader_remaining};
ghost use Rattle.std.specs.Prelude.{MatchOption};
ghost use Rattle.server.specs.Visits.{IsHeard, IsLetIn, IsPlaced, IsSentAway, IsServedAt, IsTurnedAway, IsUnheard, IsWelcomed, Visits};

use crate::staying::desk::farewell;
use crate::staying::first_line::FirstLine;
use crate::staying::hall::{Connection, Guest};
use crate::staying::notes::{Note, Parting};
use crate::staying::office::Office;
use crate::staying::staff::Duty;
use crate::staying::stream::Stream;
use console::{GreetFault, answer_first, read_first, serve_staying};
use std::alloc::Global;
use std::io::{BufReader, BufWriter, Read, Write};
use std::sync::atomic::{AtomicBool, Ordering};
use std::sync::{Arc, Wait};
use std::time::{Clock, Duration};
use term::{Node, NodeName, NodeSet};
use text_lines::hand_on;

/// For how many seconds an answer waits for its reader.
const PATIENCE: u64 = 10;

/// Serves connections, one after another, by seats that the server lends them.
#[derive(Drop)]
pub(crate) struct Worker<R: Wait + Clock + Drop + Copy> {
    pub(crate) office: Office<R>,
    /// Its place in the hall.
    pub(crate) place: usize,
}

impl<R: Wait + Clock + Drop + Copy> Duty for Worker<R> {
    ghost served = { λ worker. worker.office.nodes };

    fn nodes(&self) -> &NodeSet {
        &self.office.nodes
    }

    /// Serves connections until none comes any more.
    fn run(self) -> NodeSet {
        for _ in self.office.rt.forever() {
            match self.office.guests.recv(&self.office.rt) {
                Ok(guest) => self.host(guest),
                Err(_) => break,
            }
        }
        self.office.nodes.copy()
    }
}

impl<R: Wait + Clock + Drop + Copy> Worker<R> {
    /// Serves a connection, and is free then.
    fn host(&self, guest: Guest) {
        let Guest { number, stream } = guest;
        if self.enters(&stream) {
            self.office.note(Note::Taken(number));
            self.attend(number, &stream);
        }
        // Whoever sees the end of this connection finds the worker free, so it is free before that.
        self.office.hall.lock(&self.office.rt).leave(self.place);
        drop(stream);
    }

    /// Whether the connection is to be served. It isn't where the server ends, or couldn't end it.
    fn enters(&self, stream: &Connection) -> bool {
        match Arc::try_clone(stream) {
            Ok(handle) => self
                .office
                .hall
                .lock(&self.office.rt)
                .enter(self.place, handle),
            Err(_) => false,
        }
    }

    /// Serves the console at the other end of a connection. Answers are sent once the console has nothing further at hand, and it may wait
    /// with its first line, and with the reading of an answer, for a while and no longer. A connection that can't be told so is
    /// served all the same.
    fn attend(&self, number: u64, stream: &Stream) {
        let _ = stream.send_at_once();
        let _ = stream.set_write_timeout(Some(Duration::from_secs(PATIENCE)));
        let is_attached = AtomicBool::new(false);
        let input = FirstLine::of(self.office.rt, stream, &is_attached);
        let alloc = self.office.alloc;
        match (BufReader::new(alloc, input), BufWriter::new(alloc, stream)) {
            (Ok(mut reader), Ok(mut writer)) => {
                self.talk(number, &mut reader, &mut writer, stream, &is_attached);
                // Of a console that ended by a fault answers may still be held back.
                let _ = hand_on(&mut writer);
            }
            _ => self.office.note(Note::NotAttached(number)),
        }
    }

    /// What a first line is answered by which this was found: whom it attaches is given a place, if there is one left, and had none until then.
    fn place(&self, found: Result<NodeName, GreetFault>) -> Result<NodeName, GreetFault>
        ensures { IsPlaced found result }
    {
        if found.is_ok() && !self.office.attach() {
            self.office.note(Note::TooMany);
            return Err(GreetFault::TooManyConsoles);
        }
        found
    }

    /// Answers a first line in which this was found: the node that its console is attached to, if it is to one. It has a place then.
    fn answer<O: Write>(
        &self,
        writer: &mut O,
        found: Result<NodeName, GreetFault>,
    ) -> Option<NodeName>
        ensures { MatchOption result (IsSentAway found (O.contents writer.old) (O.contents writer.new))
            (IsWelcomed found (O.contents writer.old) (O.contents writer.new)) }
    {
        let answer = self.place(found);
        match answer_first(self.office.alloc, writer, &answer) {
            Ok(()) => answer.ok(),
            Err(_) => {
                if answer.is_ok() {
                    self.office.detach();
                }
                None
            }
        }
    }

    /// Hears the first line of a console, which must show the cookie if there is one: what is found in it. It isn't answered yet.
    fn hear<I: Read, O: Write>(
        &self,
        reader: &mut BufReader<I, Global>,
        writer: &mut O,
    ) -> Option<Result<NodeName, GreetFault>>
        ensures { MatchOption result
            (IsUnheard (reader_remaining I.remaining reader.old) (reader_remaining I.remaining reader.new)
            (O.contents writer.old) (O.contents writer.new))
            (IsHeard self.now.office.options.value.cookie self.now.office.nodes (reader_remaining I.remaining reader.old)
            (reader_remaining I.remaining reader.new) (O.contents writer.old) (O.contents writer.new)) }
    {
        let Office {
            rt,
            alloc,
            nodes,
            options,
            ..
        } = &self.office;
        match read_first(rt, *alloc, reader, writer, nodes, options.cookie.as_ref()) {
            Ok(Some(found)) => Some(found),
            Ok(None) => None,
            Err(_) => None,
        }
    }

    /// Greets a console: the node that it is attached to, if it is to one. It has a place then.
    fn greet<I: Read, O: Write>(
        &self,
        reader: &mut BufReader<I, Global>,
        writer: &mut O,
    ) -> Option<NodeName>
        ensures { MatchOption result
            (IsTurnedAway self.now.office.options.value.cookie self.now.office.nodes (reader_remaining I.remaining reader.old)
            (reader_remaining I.remaining reader.new) (O.contents writer.old) (O.contents writer.new))
            (IsLetIn self.now.office.options.value.cookie self.now.office.nodes (reader_remaining I.remaining reader.old)
            (reader_remaining I.remaining reader.new) (O.contents writer.old) (O.contents writer.new)) }
    {
        match self.hear(reader, writer) {
            Some(found) => self.answer(writer, found),
            None => None,
        }
    }

    /// Greets a console, and serves it at the node that it names, if it is let in. Once it is attached it may say nothing on its
    /// connection for as long as the server is told, or for as long as it likes.
    fn talk<I: Read, O: Write>(
        &self,
        number: u64,
        reader: &mut BufReader<I, Global>,
        writer: &mut O,
        stream: &Stream,
        is_attached: &AtomicBool,
    )
        ensures { Visits self.now.office.options.value.cookie self.now.office.nodes (reader_remaining I.remaining reader.old)
            (reader_remaining I.remaining reader.new) (O.contents writer.old) (O.contents writer.new) }
    {
        match self.greet(reader, writer) {
            Some(node) => {
                is_attached.store(true, Ordering::SeqCst);
                let _ = stream.set_read_timeout(self.office.options.silence());
                let parting = self.serve(reader, writer, stream, &node);
                self.office.detach();
                self.part(number, node, parting);
            }
            None => self.office.note(Note::NotAttached(number)),
        }
    }

    /// Serves a console at its node. A lock or a name is waited for no longer than its client is there.
    fn serve<I: Read, O: Write>(
        &self,
        reader: &mut BufReader<I, Global>,
        writer: &mut O,
        stream: &Stream,
        node: &NodeName,
    ) -> Parting
        ensures { IsServedAt node.now (reader_remaining I.remaining reader.old) (reader_remaining I.remaining reader.new)
            (O.contents writer.old) (O.contents writer.new) result }
    {
        let ended = serve_staying(
            &self.office.rt,
            self.office.alloc,
            reader,
            writer,
            Node::first(node.copy()),
            stream,
            &self.office,
        );
        Parting::of(&ended)
    }

    /// Tells the desk how a console has ended, and that it asked for the end of the server, if it did.
    fn part(&self, number: u64, node: NodeName, parting: Parting) {
        let (told, shutdown) = farewell(number, node, parting);
        self.office.say(told);
        if let Some(shutdown) = shutdown {
            self.office.say(shutdown);
        }
    }
}
