ghost use Rattle.std.specs.Prelude.{◌≡◌, ◌+◌, ◌*◌, vec_len};
ghost use Rattle.ways.specs.Notations.{longest_line};
ghost use Rattle.answers.specs.Answers.{places, Settles, Answers};
ghost use Rattle.answers.specs.inside.Replies.{reply_text};

use crate::reply::Reply;
use crate::solving::solve;
use levels::{SearchMemory, Table, TableVisitor, read_level};
use search_theory::Verdict;
use std::alloc::{AllocError, Global};
use text::pen::write_text;
use ways::{LONGEST_LINE, Notation, write_way};

/// How many places the search's table has.
const PLACES: usize = 2_048;

/// How many numbers the search's list has for each place.
const NUMBERS_PER_PLACE: usize = 8;

/// Room for a way of as many moves as the table has places, each line with its end, and for its head and closing line.
const TEXT_ROOM: usize = (PLACES + 1) * (LONGEST_LINE + 1);

/// What an answer needs beside what is the level's: the search's numbers, the moves that it finds, and the text.
#[derive(Drop)]
struct Memory {
    numbers: Vec<u32>,
    moves: Vec<u32>,
    text: Vec<u8>,
    ghost numbered: { vec_len numbers ≡ 8 * places },
    ghost moved: { vec_len moves ≡ places },
    ghost roomy: { vec_len text ≡ (places + 1) * (longest_line + 1) },
}

/// All the memory that an answer needs. It is good for any number of answers, one after the other.
#[derive(Drop)]
pub struct Workspace {
    search: SearchMemory<PLACES>,
    memory: Memory,
}

impl Memory {
    // The text of a reply.
    fn reply(&mut self, reply: Reply) -> &[u8]
        ensures { result.now ≡ reply_text reply }
    {
        let length = write_text(&reply, &mut self.text).unwrap();
        &self.text[..length]
    }
}

/// Answers the level that it visits.
impl<'a> TableVisitor<PLACES> for &'a mut Memory {
    type Output = &'a [u8];

    ghost Gives = { λ _ rules answer. Settles rules answer.now };

    fn visit<L: Notation>(self, level: &L, table: &mut Table<L::Position, PLACES>) -> &'a [u8] {
        match solve(
            level,
            &mut table.positions,
            &mut self.numbers,
            &mut self.moves,
        ) {
            Verdict::Running => unreachable!(),
            Verdict::Solved(count) => {
                let way = &self.moves[..count as usize];
                let length = write_way(level, way, &mut self.text).unwrap();
                &self.text[..length]
            }
            Verdict::Unsolvable => self.reply(Reply::NoWay),
            Verdict::TableFull => self.reply(Reply::TooMany),
        }
    }
}

impl Workspace {
    /// A workspace with memory from the heap. Nothing else here allocates.
    pub fn new(heap: Global) -> Result<Workspace, AllocError> {
        let memory = Memory {
            numbers: vec![in heap; 0u32; PLACES * NUMBERS_PER_PLACE]?,
            moves: vec![in heap; 0u32; PLACES]?,
            text: vec![in heap; 0u8; TEXT_ROOM]?,
        };
        let search = SearchMemory::new(heap)?;
        Ok(Workspace { search, memory })
    }

    /// The answer to a level's text.
    ///
    /// It is a shortest way, `(none)` if there is no way, `(full)` if the search finds its table of 2,048 places too
    /// small, so that more positions can be reached, or `(fault NUMBER LINE)` if the text is refused. An atom level is
    /// searched with its book if that has at most 32,768 bytes. Which of several shortest ways is free; all else is
    /// fixed by the rules of the search.
    pub fn answer(&mut self, text: &[u8]) -> &[u8]
        ensures { Answers text.now result.now }
    {
        match read_level(text) {
            Ok(level) => level.accept_for_search(&mut self.search, &mut self.memory),
            Err(refusal) => self.memory.reply(Reply::Refused(refusal)),
        }
    }
}
