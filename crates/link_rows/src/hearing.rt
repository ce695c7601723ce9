// What is told of a link as it is heard.
use crate::replies::Said;
use fetch_link::{Connection, What};
use fused_decoder::Ending;
use link_dialog::Awaited;
use lists::Bytes;
use nntp_lines::Why;
use range_assembler::Clash;
use std::alloc::Global;
use std::test::Fail;

/// A link on which some bodies are asked for, with what is told of it.
#[derive(Drop)]
pub(crate) struct Told {
    link: Connection,
    pub(crate) log: Bytes,
    // How many replies were heard, and for how many bodies was asked.
    heard: u32,
    asked: u32,
    over: bool,
}

impl Told {
    pub(crate) fn new(alloc: Global, asked: u32) -> Self {
        Told {
            link: Connection::new(),
            log: Bytes::new(alloc),
            heard: 0,
            asked,
            over: false,
        }
    }

    fn awaited(&self) -> Option<Awaited> {
        if self.heard == 0 {
            return Some(Awaited::Greeting);
        }
        if self.heard <= self.asked {
            return Some(Awaited::Body);
        }
        None
    }

    /// Hears a piece, of at most 40 bytes.
    pub(crate) fn hear(&mut self, piece: &[u8]) -> Result<(), Fail> {
        if piece.len() > 40 {
            return Err(Fail::from("a short piece"));
        }
        let mut buffer = [0; 40];
        buffer[..piece.len()].copy_from_slice(piece);
        let mut at = 0;
        while at < piece.len() {
            if self.over {
                return Ok(());
            }
            let awaited = self.awaited();
            let took = self.link.take(awaited, &mut buffer[at..piece.len()]);
            self.log.extend(&buffer[at..at + took.wrote])?;
            at += took.used;
            self.tell(took.what)?;
        }
        Ok(())
    }

    fn tell(&mut self, what: What) -> Result<(), Fail> {
        let told = match what {
            What::More => "",
            What::Reply(code) => {
                self.heard = self.heard.saturating_add(1);
                word_of_code(code)
            }
            What::Range { size, .. } => {
                self.answer(size);
                word_of_size(size)
            }
            What::Article { ending, .. } => {
                self.heard = self.heard.saturating_add(1);
                word_of_ending(ending)
            }
            What::Over(why) => {
                self.over = true;
                word_of_end(why)
            }
        };
        self.log.extend(told.as_bytes())?;
        Ok(())
    }

    // The file of 27 bytes has another article at that range.
    fn answer(&mut self, size: u64) {
        if size == 27 {
            self.link.turn_away(Clash {
                other: 0,
                first: 1,
                last: 10,
            });
        } else {
            self.link.go_on(size);
        }
    }
}

fn word_of_code(code: u16) -> &'static str {
    match code {
        200 => "<200>",
        423 => "<423>",
        430 => "<430>",
        _ => "<another code>",
    }
}

fn word_of_size(size: u64) -> &'static str {
    match size {
        2 => "<size 2>",
        9 => "<size 9>",
        18 => "<size 18>",
        27 => "<size 27>",
        _ => "<another size>",
    }
}

fn word_of_ending(ending: Ending) -> &'static str {
    match ending {
        Ending::Accepted {
            crc: 0xCBF4_3926,
            whole: None,
        } => "<accepted>",
        Ending::Accepted {
            crc: 0xCBF4_3926,
            whole: Some(0x0123_ABCD),
        } => "<accepted, of 0123abcd>",
        Ending::Accepted { .. } => "<another sum>",
        Ending::Refused(_) => "<refused>",
        Ending::TurnedAway => "<turned away>",
    }
}

fn word_of_end(why: Why) -> &'static str {
    match why {
        Why::Odd(400) => "<odd>",
        Why::NoReply => "<no reply>",
        Why::Unasked => "<unasked>",
        _ => "<another end>",
    }
}

/// A text of replies, and what is to be told of it.
#[derive(Drop)]
pub(crate) struct Script {
    pub(crate) text: Bytes,
    pub(crate) told: Bytes,
}

impl Script {
    pub(crate) fn new(alloc: Global) -> Self {
        Script {
            text: Bytes::new(alloc),
            told: Bytes::new(alloc),
        }
    }

    pub(crate) fn say(&mut self, said: Said) -> Result<(), Fail> {
        self.text.extend(said.0.as_bytes())?;
        self.told.extend(said.1.as_bytes())?;
        Ok(())
    }
}
