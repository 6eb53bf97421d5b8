// A session between its first line and its last: its calls, and its lists as they are finished.
use calls::phase::in_closed;
use flat::line::Wrong;
use play::line::play;
use played::print::Printer;
use records::outcome::number_of;
use records::state::{Answer, State};
use sessions::header::Header;
use sessions::lines::Text;
use std::io::Write;

// What the first line says, the runs, the state, how many calls are answered, and whether a list is finished.
#[derive(Drop)]
pub(crate) struct Session<'a> {
    header: Header,
    bytes: &'a mut [u8],
    queries: &'a mut [u32],
    answers: &'a mut [u8],
    state: State,
    answered: usize,
    listed: bool,
}

impl<'a> Session<'a> {
    pub(crate) fn new(
        header: Header,
        bytes: &'a mut [u8],
        queries: &'a mut [u32],
        answers: &'a mut [u8],
    ) -> Session<'a> {
        Session {
            header,
            bytes,
            queries,
            answers,
            state: State::new(),
            answered: 0,
            listed: false,
        }
    }

    // The marker bytes and the queries of the list.
    fn recorded(&self) -> (&[u8], &[u32]) {
        let progress = self.state.progress;
        let bytes = progress.bytes.min(self.bytes.len());
        let queries = progress.queries.min(self.queries.len());
        (&self.bytes[..bytes], &self.queries[..queries])
    }

    // The state after a call, and its answer; a list is finished where the encoder was open and is closed.
    fn take_answer<W: Write>(&mut self, out: &mut Printer<W>, answer: Answer) {
        let before = self.state.progress.phase;
        self.state = answer.state;
        let after = self.state.progress.phase;
        if !in_closed(before) && in_closed(after) {
            let (bytes, queries) = self.recorded();
            out.end_list(bytes, queries);
            self.listed = true;
        }
        if let Some(place) = self.answers.get_mut(self.answered) {
            *place = number_of(answer.outcome);
            self.answered += 1;
        }
    }

    // The call of a line, where it is right.
    pub(crate) fn call<W: Write>(&mut self, out: &mut Printer<W>, text: Text) -> Result<(), Wrong> {
        let mut line = text.whole()?;
        let answer = play(
            out,
            self.header.commands,
            self.bytes,
            self.queries,
            &mut line,
            self.header.caps,
            self.state,
        )?;
        self.take_answer(out, answer);
        Ok(())
    }

    // What ends a session: the list that is open, where it has a command or is the only one, the state and the answers.
    pub(crate) fn put_end<W: Write>(&self, out: &mut Printer<W>) {
        let progress = self.state.progress;
        let open = !in_closed(progress.phase) && progress.commands > 0;
        if open || !self.listed {
            let (bytes, queries) = self.recorded();
            out.put_bytes(bytes);
            out.put_queries(queries);
        }
        out.put_state(self.state);
        let answered = self.answered.min(self.answers.len());
        out.put_answers(&self.answers[..answered]);
    }
}
