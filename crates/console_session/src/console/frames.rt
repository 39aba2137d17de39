// Commands taken from the buffer, frames of them, and input lines.
ghost use Rattle.std.specs.Prelude.{◌≡◌, ◌<◌, length, IfSome};
ghost use Rattle.cmd_buffer.specs.Buffer.{taken_text};
ghost use Rattle.mem_model.specs.Laid.{IsText};
ghost use Rattle.console_session.specs.Holding.{Holds, AreShort};
ghost use Rattle.console_session.specs.Serving.{seen, Does, RunsAs};
ghost use Rattle.console_session.specs.Commands.{by_verb, by_words, by_known, by_text, command, map_in, name_in, number_in, table_in};
ghost use Rattle.console_session.specs.Frames.{frame, line, overflowed, ending};

use crate::console::Console;
use crate::ends::{Fault, Next};
use crate::handed::HandedCommand;
use crate::replies::{put_runaway, put_too_long};
use crate::verbs::{Verb, find_verb};
use base_fields::{GameName, decimal, game_name, joined};
use cmd_buffer::{CommandText, Taken, Words, tokenize};
use mem_model::Store;
use outside_io::{Folder, Sink};
use res_table::Table;

// How many commands a frame takes.
const MOST: u32 = 4096;

impl<M: Store, F: Folder> Console<M, F> {
    // One arm for each command.
    fn run_verb<O: Sink>(
        &mut self,
        verb: Option<Verb>,
        words: &Words<'_>,
        out: &mut O,
    ) -> Result<Next, Fault>
        requires holds { Holds (seen M.Store F.Folder self.old) }
        requires short { AreShort words.now }
        ensures { Does M.Store F.Folder O.Sink (by_verb verb words.now) self.old self.new out.old out.new result }
    {
        match verb {
            None => self.run_name(words, out),
            Some(Verb::File) => self.file(name_in(words, 1), out),
            Some(Verb::Echo) => self.echo(words, out),
            Some(Verb::Exec) => self.exec(name_in(words, 1), out),
            Some(Verb::Wait) => Ok(Next::Waits),
            Some(Verb::Quit) => Ok(Next::Quits),
            Some(Verb::Reserve) => self.reserve(number_in(words, 1), name_in(words, 2), out),
            Some(Verb::Video) => self.video(number_in(words, 1), name_in(words, 2), out),
            Some(Verb::Level) => self.set_level(out),
            Some(Verb::Report) => self.report_blocks(out),
            Some(Verb::Alias) => self.alias(words, out),
            Some(Verb::Path) => self.list_path(out),
            Some(Verb::Flush) => self.flush_cache(out),
            Some(Verb::Sound) => self.acquire(Table::Sounds, name_in(words, 1), out),
            Some(Verb::Model) => self.acquire(Table::Models, name_in(words, 1), out),
            Some(Verb::Info) => self.info(table_in(words, 1), name_in(words, 2), out),
            Some(Verb::Dump) => self.dump(table_in(words, 1), name_in(words, 2), out),
            Some(Verb::Wad) => self.take_wad(name_in(words, 1), out),
            Some(Verb::Pic) => self.pic(words.word(1), out),
            Some(Verb::Map) => self.change_map(map_in(words, 1), out),
            Some(Verb::Vis) => self.vis(number_in(words, 1), out),
        }
    }

    fn run_words<O: Sink>(&mut self, words: &Words<'_>, out: &mut O) -> Result<Next, Fault>
        requires holds { Holds (seen M.Store F.Folder self.old) }
        requires short { AreShort words.now }
        ensures { Does M.Store F.Folder O.Sink (by_words words.now) self.old self.new out.old out.new result }
    {
        let Some(word) = words.first() else {
            return Ok(Next::Goes);
        };
        self.run_verb(find_verb(word), words, out)
    }

    // Runs the command of a text, or keeps it for who runs the console.
    #[tactic(auto, using(crate::proofs::Holding::holds_handed))]
    fn run_text<O: Sink>(&mut self, text: &CommandText, out: &mut O) -> Result<Next, Fault>
        requires holds { Holds (seen M.Store F.Folder self.old) }
        requires text { IsText text.now.items }
        ensures { Does M.Store F.Folder O.Sink (by_known text.now.items) self.old self.new out.old out.new result }
    {
        let words = tokenize(text);
        if self.hands && self.are_strange(&words) {
            self.handed = Some(HandedCommand::copied(text));
            return Ok(Next::Hands);
        }
        self.run_words(&words, out)
    }

    fn run_taken<O: Sink>(
        &mut self,
        taken: Taken,
        text: &CommandText,
        out: &mut O,
    ) -> Result<Next, Fault>
        requires holds { Holds (seen M.Store F.Folder self.old) }
        requires text { IfSome (taken_text text.now.items taken) (λ text. IsText text) }
        ensures { Does M.Store F.Folder O.Sink (by_text (taken_text text.now.items taken))
            self.old self.new out.old out.new result }
    {
        match taken {
            Taken::TooLong => put_too_long(out),
            Taken::Text => self.run_text(text, out),
        }
    }

    // Takes a command into `text` and runs it.
    fn run_command<O: Sink>(&mut self, text: &mut CommandText, out: &mut O) -> Result<Next, Fault>
        requires some { 0 < length self.old.buffer }
        requires holds { Holds (seen M.Store F.Folder self.old) }
        ensures { Does M.Store F.Folder O.Sink command self.old self.new out.old out.new result }
    {
        match self.buffer.take(text) {
            Some(taken) => self.run_taken(taken, text, out),
            None => Ok(Next::Goes),
        }
    }

    // Takes commands, each into `text`, until the buffer is empty, or a command ends the frame. True where `quit` was
    // executed.
    pub fn run_frame<O: Sink>(
        &mut self,
        through: bool,
        text: &mut CommandText,
        out: &mut O,
    ) -> Result<bool, Fault>
        requires holds { Holds (seen M.Store F.Folder self.old) }
        ensures { RunsAs M.Store F.Folder O.Sink (frame through 4096) self.old self.new out.old out.new result }
    {
        let mut budget = MOST;
        'commands: while 0 < self.buffer.used() {
            if budget == 0 {
                self.buffer.clear();
                return put_runaway(out);
            }
            budget -= 1;
            let next = match self.run_command(text, out) {
                Ok(next) => next,
                Err(fault) => return Err(fault),
            };
            if let Some(quit) = ends_frame(through, next) {
                return Ok(quit);
            }
        }
        Ok(false)
    }

    // Says that there was no room for a line, and goes on.
    fn run_overflow<O: Sink>(&mut self, text: &mut CommandText, out: &mut O) -> Result<bool, Fault>
        requires holds { Holds (seen M.Store F.Folder self.old) }
        ensures { RunsAs M.Store F.Folder O.Sink overflowed self.old self.new out.old out.new result }
    {
        if let Err(_) = out.put(b"overflow\n") {
            return Err(Fault::Write);
        }
        self.run_frame(false, text, out)
    }

    pub fn run_line<O: Sink>(
        &mut self,
        typed: &[u8],
        text: &mut CommandText,
        out: &mut O,
    ) -> Result<bool, Fault>
        requires holds { Holds (seen M.Store F.Folder self.old) }
        ensures { RunsAs M.Store F.Folder O.Sink (line typed.now) self.old self.new out.old out.new result }
    {
        if self.buffer.add_line(typed).is_ok() {
            self.run_frame(false, text, out)
        } else {
            self.run_overflow(text, out)
        }
    }
}

// The lawful name that the word of this number is.
fn name_in(words: &Words<'_>, number: usize) -> Option<GameName>
    ensures { result ≡ name_in number words.now }
{
    game_name(words.word(number)).ok()
}

// The name of the file of the map that the word of this number names.
fn map_in(words: &Words<'_>, number: usize) -> Option<GameName>
    ensures { result ≡ map_in number words.now }
{
    joined(b"maps/", words.word(number), b".bsp").ok()
}

fn number_in(words: &Words<'_>, number: usize) -> Option<u32>
    ensures { result ≡ number_in number words.now }
{
    decimal(words.word(number)).ok()
}

// The table that the word of this number names, in exact case.
fn table_in(words: &Words<'_>, number: usize) -> Option<Table>
    ensures { result ≡ table_in number words.now }
{
    match words.word(number) {
        b"model" => Some(Table::Models),
        b"sound" => Some(Table::Sounds),
        _ => None,
    }
}

// Whether a frame ends behind a command, and whether by `quit`.
fn ends_frame(through: bool, next: Next) -> Option<bool>
    ensures { result ≡ ending through next }
{
    match next {
        Next::Goes => None,
        Next::Waits => { if through { None } else { Some(false) } }
        Next::Hands => Some(false),
        Next::Quits => Some(true),
    }
}
