// Replies by chance, cut by chance.
ghost use Rattle.std.specs.Prelude.{◌<◌};

use crate::hearing::{Script, Told};
use crate::replies::{ANSWERS, ENDS};
use std::process::Abort;
use std::test::Fail;

/// Numbers by chance: a xorshift of 32 bits.
#[derive(Drop)]
struct Chance {
    state: u32,
}

impl Chance {
    fn below(&mut self, bound: u32) -> u32
        requires { 0 < bound }
        ensures { result < bound }
    {
        let mut x = self.state;
        x ^= (x % 524288) * 8192;
        x ^= x / 131072;
        x ^= (x % 134217728) * 32;
        self.state = x;
        (x / 16) % bound
    }
}

// Hears a text in pieces of at most 40 bytes.
fn hear_cut(told: &mut Told, chance: &mut Chance, text: &[u8]) -> Result<(), Fail> {
    let most = 1 + chance.below(40);
    let mut at = 0;
    while at < text.len() {
        let size = (1 + chance.below(most) as usize)
            .min(text.len() - at)
            .min(40);
        told.hear(&text[at..at + size])?;
        at += size;
    }
    Ok(())
}

// A greeting and at most six answers and an end, cut anew.
fn agrees<R: Abort + AllocGlobal>(rt: &R, chance: &mut Chance) -> Result<bool, Fail> {
    let mut script = Script::new(rt.alloc());
    script.say(("200 hi\r\n", "<200>"))?;
    let answers = chance.below(7);
    for _ in 0..answers {
        script.say(ANSWERS[chance.below(7) as usize])?;
    }
    let (end, awaited) = ENDS[chance.below(5) as usize];
    script.say(end)?;
    let asked = if awaited { answers + 1 } else { answers };
    let mut told = Told::new(rt.alloc(), asked);
    hear_cut(&mut told, chance, script.text.as_slice())?;
    Ok(told.log.as_slice() == script.told.as_slice())
}

#[test]
fn replies_are_told_the_same_however_they_are_cut(rt: HostRuntime) -> Result<(), Fail> {
    let mut chance = Chance { state: 2463534242 };
    for _ in 0..4000u32 {
        assert!(rt; agrees(&rt, &mut chance)?);
    }
    Ok(())
}
