// What is kept of one link, and the calls on it that hear nothing.
ghost use Rattle.std.specs.Prelude.{◌≤◌, ◌≡◌};
ghost use Rattle.limits.specs.declared.TheConstants.{MOST_TEXT_BYTES};
ghost use Rattle.fetch_link.specs.Shown.{is_shown};

use fused_decoder::Fused;
use link_dialog::Reader;
use nntp_lines::Why;
use range_assembler::Clash;

/// What is heard on the link.
#[derive(Clone, Copy, Debug, PartialEq, Eq)]
pub enum Phase {
    /// A status line.
    Line,
    /// The block of an article.
    Article,
}

/// One link of a fetch, as far as bytes were heard on it. It stands for these (`LinkStands`): the replies behind them are the
/// caller's, as are its number and what is awaited. It takes no memory.
#[derive(Drop)]
pub struct Connection {
    pub(crate) reader: Reader,
    pub(crate) fused: Fused,
    pub(crate) phase: Phase,
    // How many bytes the reply has so far, in an article, its status line counted.
    pub(crate) heard: usize,
    // Of the article that hasn't ended: the size of its file, what stood against its range, and how many bytes were given.
    pub(crate) size: u64,
    pub(crate) against: Option<Clash>,
    pub(crate) wrote: u64,
    // How many quiet receives stand last, and why the link is over.
    pub(crate) quiet: u32,
    pub(crate) over: Option<Why>,
    ghost bounded: { heard ≤ MOST_TEXT_BYTES },
    ghost fewer: { wrote ≤ heard },
}

// Whether a link shows the article that hasn't ended, which is over so.
fn is_shown(over: Option<Why>) -> bool
    ensures { result ≡ is_shown over }
{
    match over {
        None => true,
        Some(Why::TooLong) => false,
        Some(_) => true,
    }
}

impl Connection {
    ghost use Rattle.std.specs.Prelude.{◌≡◌, ◌≢◌, ℕ, List, Option, Some, None, is_some, length};
    ghost use Rattle.yenc_lines.specs.declared.keyword.Begin.{Begin};
    ghost use Rattle.link_dialog.specs.declared.awaited.Awaited.{Awaited};
    ghost use Rattle.fused_decoder.specs.declared.state.Mode.{Mode};
    ghost use Rattle.fused_decoder.specs.Steps.{IsMoment, IsGiven};
    ghost use Rattle.range_assembler.specs.declared.assembler.Clash.{Clash};
    ghost use Rattle.fetch_trace.specs.Hearing.{Hearing, at_opening, after_quiet, after_end, after_sent};
    ghost use Rattle.fetch_trace.specs.Verdicts.{Range, range_of};
    ghost use Rattle.fetch_link.specs.Bytes.{block_heard};
    ghost use Rattle.fetch_link.specs.Link.{LinkStands, Decodes};

    /// A link on which nothing was heard.
    pub fn new() -> Self
        ensures stands { LinkStands result at_opening Mode.Unasked None }
    {
        Connection {
            reader: Reader::new(),
            fused: Fused::start(),
            phase: Phase::Line,
            heard: 0,
            size: 0,
            against: None,
            wrote: 0,
            quiet: 0,
            over: None,
        }
    }

    /// Lets the data of the article follow, whose range was just answered by `What::Range`, with the size of its file in bytes.
    pub fn go_on(&mut self, size: u64)
        ensures goes_on { (h : Hearing) (against : Option Clash) (range : Range) → h.over ≡ None → range_of h.rest ≡ Some range
            → size ≡ range.size → LinkStands self.old h Mode.Unasked against → LinkStands self.new h Mode.On against }
    {
        self.size = size;
        self.fused.go_on();
    }

    /// Skips the rest of the article, right after `What::Range`: this range stood against its own.
    pub fn turn_away(&mut self, clash: Clash)
        ensures turns_away { (h : Hearing) (against : Option Clash) (b : Begin) (first last : ℕ) → h.over ≡ None → IsMoment (block_heard h.rest) b first last
            → LinkStands self.old h Mode.Unasked against → LinkStands self.new h Mode.Away (Some clash) }
    {
        self.against = Some(clash);
        self.fused.turn_away();
    }

    /// A receive found nothing. True where as many followed each other as the patience, which is at least 1: the link is over.
    pub fn be_quiet(&mut self, patience: u32) -> bool
        ensures over { (h : Hearing) (mode : Mode) (against : Option Clash) → h.over ≡ None → LinkStands self.old h mode against
            → result ≡ is_some (after_quiet patience h).over }
        ensures quiet { (h : Hearing) (mode : Mode) (against : Option Clash) → h.over ≡ None → LinkStands self.old h mode against
            → LinkStands self.new (after_quiet patience h) mode against }
    {
        self.quiet = self.quiet.saturating_add(1);
        if patience <= self.quiet {
            self.over = Some(Why::Quiet);
            return true;
        }
        false
    }

    /// The link ended, as the system tells it. Nothing more is heard on it.
    pub fn end(&mut self)
        ensures ends { (h : Hearing) (mode : Mode) (against : Option Clash) → h.over ≡ None → LinkStands self.old h mode against
            → LinkStands self.new (after_end h) mode against }
    {
        self.over = Some(Why::Ended);
    }

    /// Bytes of a command were sent, so that no quiet receive stands last.
    pub fn note_sent(&mut self)
        ensures sent { (h : Hearing) (mode : Mode) (against : Option Clash) (kinds : List Awaited) → h.over ≡ None → LinkStands self.old h mode against
            → LinkStands self.new (after_sent kinds h) mode against }
    {
        self.quiet = 0;
    }

    /// Why the link is over, where it is.
    pub fn over(&self) -> Option<Why>
        ensures over { (h : Hearing) (mode : Mode) (against : Option Clash) → LinkStands self.now h mode against → result ≡ h.over }
    {
        self.over
    }

    /// How many bytes of data the article that hasn't ended gave so far. Of one that was turned away nothing is said.
    pub fn wrote(&self) -> u64
        ensures wrote { (h : Hearing) (mode : Mode) (against : Option Clash) (range : Range) (bytes : List ℕ) → h.over ≡ None → LinkStands self.now h mode against
            → mode ≢ Mode.Away → range_of h.rest ≡ Some range → IsGiven (block_heard h.rest) bytes → result ≡ length bytes }
    {
        self.wrote
    }

    /// The decoder of the article that hasn't ended, also where the link is over inside it. None where it was too long.
    pub fn decoder(&self) -> Option<&Fused>
        ensures decoder { (h : Hearing) (mode : Mode) (against : Option Clash) → LinkStands self.now h mode against → Decodes result h mode }
    {
        match self.phase {
            Phase::Line => None,
            Phase::Article => {
                if is_shown(self.over) {
                    return Some(&self.fused);
                }
                None
            }
        }
    }
}
