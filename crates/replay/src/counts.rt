// What was counted: of each type of row how many agree, and of the damaged rows how many differ, as they must.

use std::io;

// What the first byte of a row says that it has.
#[derive(Clone, Copy, PartialEq, Eq)]
pub enum RowKind {
    Parse,
    Annotation,
    List,
    Read,
    Name,
}

// A number that is no type's.
#[derive(Clone, Copy, PartialEq, Eq)]
pub struct NoKind;

impl TryFrom<u8> for RowKind {
    type Error = NoKind;

    fn try_from(number: u8) -> Result<Self, NoKind> {
        match number {
            1 => Ok(RowKind::Parse),
            2 => Ok(RowKind::Annotation),
            3 => Ok(RowKind::List),
            4 => Ok(RowKind::Read),
            5 => Ok(RowKind::Name),
            _ => Err(NoKind),
        }
    }
}

// What a row says.
#[derive(Clone, Copy, PartialEq, Eq)]
pub enum Verdict {
    // no type, or a text that is too long
    Unknown,
    Whole { kind: RowKind, agrees: bool },
    Damaged { noticed: bool },
}

// How many rows were as they must be, and how many not.
#[derive(Clone, Copy)]
struct Tally {
    right: u64,
    wrong: u64,
}

impl Tally {
    fn new() -> Self {
        Tally { right: 0, wrong: 0 }
    }

    fn count(&mut self, right: bool) {
        if right {
            self.right = self.right.wrapping_add(1);
        } else {
            self.wrong = self.wrong.wrapping_add(1);
        }
    }
}

#[derive(Clone, Copy)]
pub struct Counts {
    unknown: u64,
    parse: Tally,
    annotation: Tally,
    list: Tally,
    read: Tally,
    name: Tally,
    damaged: Tally,
}

impl Counts {
    pub fn new() -> Self {
        Counts {
            unknown: 0,
            parse: Tally::new(),
            annotation: Tally::new(),
            list: Tally::new(),
            read: Tally::new(),
            name: Tally::new(),
            damaged: Tally::new(),
        }
    }

    pub fn count(&mut self, verdict: Verdict) {
        match verdict {
            Verdict::Unknown => self.unknown = self.unknown.wrapping_add(1),
            Verdict::Whole { kind, agrees } => match kind {
                RowKind::Parse => self.parse.count(agrees),
                RowKind::Annotation => self.annotation.count(agrees),
                RowKind::List => self.list.count(agrees),
                RowKind::Read => self.read.count(agrees),
                RowKind::Name => self.name.count(agrees),
            },
            Verdict::Damaged { noticed } => self.damaged.count(noticed),
        }
    }

    // Whether all is as it must be.
    fn all_right(&self) -> bool {
        (self.unknown == 0)
            & (self.parse.wrong == 0)
            & (self.annotation.wrong == 0)
            & (self.list.wrong == 0)
            & (self.read.wrong == 0)
            & (self.name.wrong == 0)
            & (self.damaged.wrong == 0)
    }

    pub fn report(&self, rt: &impl Print) -> io::Result<()> {
        line(rt, "parse", self.parse)?;
        line(rt, "annotation", self.annotation)?;
        line(rt, "list", self.list)?;
        line(rt, "read", self.read)?;
        line(rt, "name", self.name)?;
        line(rt, "damaged, and noticed", self.damaged)?;
        if self.all_right() {
            println!(rt; "all agree")
        } else {
            println!(rt; "answers differ")
        }
    }
}

fn line(rt: &impl Print, name: &str, tally: Tally) -> io::Result<()> {
    let right = tally.right;
    let all = right.wrapping_add(tally.wrong);
    println!(rt; "{name} {right} of {all}")
}
