// Reading a line of decimal numbers, one blank between two, from left to right.
ghost use Rattle.std.specs.Prelude.{◌≡◌, ◌<◌, ◌≤◌, length, IfOk, IfErr, MatchResult};
ghost use Rattle.flat.specs.declared.line.Wanted.TheVariants.{End};

use std::error::Error;
use std::fmt;

// What was expected where a line is wrong.
#[derive(Clone, Copy, Debug, PartialEq, Eq)]
pub enum Wanted {
    UpTo(u64),
    Signed,
    End,
}

impl fmt::Display for Wanted {
    fn fmt<W: fmt::Write>(&self, f: &mut fmt::Formatter<W>) -> fmt::Result {
        match self {
            Wanted::UpTo(most) => write!(f, "a number from 0 to {most}"),
            Wanted::Signed => write!(f, "a number from {} to {}", i32::MIN, i32::MAX),
            Wanted::End => f.write_str("one blank and a number, or the end of the line"),
        }
    }
}

// The first place where a line is wrong, counted from 0.
#[derive(Clone, Copy, Debug, PartialEq, Eq)]
pub struct Wrong {
    pub at: usize,
    pub wanted: Wanted,
}

impl fmt::Display for Wrong {
    fn fmt<W: fmt::Write>(&self, f: &mut fmt::Formatter<W>) -> fmt::Result {
        write!(
            f,
            "expected {} at character {}",
            self.wanted,
            self.at.saturating_add(1)
        )
    }
}

impl Error for Wrong {}

// How long a list that no run bounds may be said to be.
pub(crate) const MAX_COUNT: usize = 4294967295;

// The number that digits spell, with no zero before others.
fn number(digits: &[u8]) -> Option<u64> {
    if let [] | [b'0', _, ..] = digits {
        return None;
    }
    let mut n: u64 = 0;
    for d in digits {
        n = n.checked_mul(10)?.checked_add(d.wrapping_sub(b'0') as u64)?;
    }
    Some(n)
}

// That number with its sign; there is no -0.
fn signed(minus: bool, digits: &[u8]) -> Option<i32> {
    let n = i64::try_from(number(digits)?).ok()?;
    if minus {
        if n == 0 {
            return None;
        }
        return i32::try_from(-n).ok();
    }
    i32::try_from(n).ok()
}

// A line, and where its next number begins: the line's length after the last.
#[derive(Clone, Copy)]
pub struct Line<'a> {
    bytes: &'a [u8],
    at: usize,
    ghost within: { at ≤ length bytes.now },
}

impl<'a> Line<'a> {
    pub fn new(bytes: &'a [u8]) -> Line<'a>
        ensures whole { result.bytes.now ≡ bytes.now }
        ensures start { result.at ≡ 0 }
    {
        Line { bytes, at: 0 }
    }

    // The first place from `at` on that has no digit.
    fn digits_end(&self, at: usize) -> usize
        requires { at ≤ length self.now.bytes.now }
        ensures from { at ≤ result }
        ensures within { result ≤ length self.now.bytes.now }
    {
        let rest = &self.bytes[at..];
        at + rest.iter().take_while(|b| b.is_ascii_digit()).count()
    }

    // Past a number that ends before `end`: the line's end, or one blank and more.
    fn pass(&mut self, end: usize) -> Result<(), Wrong>
        requires { end ≤ length self.old.bytes.now }
        ensures { IfErr result (λ w. w.at ≤ length self.old.bytes.now) }
    {
        match &self.bytes[end..] {
            [] => self.at = end,
            [b' ', _, ..] => self.at = end + 1,
            _ => {
                return Err(Wrong {
                    at: end,
                    wanted: Wanted::End,
                });
            }
        }
        Ok(())
    }

    // The next number, where it is at most `most`.
    pub fn take(&mut self, most: u64) -> Result<u64, Wrong>
        ensures { MatchResult result (λ n. n ≤ most) (λ w. w.at ≤ length self.old.bytes.now) }
    {
        let at = self.at;
        let end = self.digits_end(at);
        match number(&self.bytes[at..end]) {
            Some(n) if n <= most => {
                self.pass(end)?;
                Ok(n)
            }
            _ => Err(Wrong {
                at,
                wanted: Wanted::UpTo(most),
            }),
        }
    }

    // A number of 32 bits with a sign.
    pub fn take_i32(&mut self) -> Result<i32, Wrong>
        ensures { IfErr result (λ w. w.at ≤ length self.old.bytes.now) }
    {
        let start = self.at;
        let minus = self.bytes[start..].first() == Some(&b'-');
        let at = if minus { start + 1 } else { start };
        let end = self.digits_end(at);
        let n = signed(minus, &self.bytes[at..end]).ok_or(Wrong {
            at: start,
            wanted: Wanted::Signed,
        })?;
        self.pass(end)?;
        Ok(n)
    }

    // The line is at its end.
    pub fn end(&self) -> Result<(), Wrong>
        ensures { MatchResult result (λ _. self.now.at ≡ length self.now.bytes.now) (λ w. (w.at ≡ self.now.at) × (w.wanted ≡ End)) }
    {
        if self.at < self.bytes.len() {
            return Err(Wrong {
                at: self.at,
                wanted: Wanted::End,
            });
        }
        Ok(())
    }

    pub fn take_u64(&mut self) -> Result<u64, Wrong>
        ensures { IfErr result (λ w. w.at ≤ length self.old.bytes.now) }
    {
        self.take(u64::MAX)
    }

    pub fn take_u32(&mut self) -> Result<u32, Wrong>
        ensures { IfErr result (λ w. w.at ≤ length self.old.bytes.now) }
    {
        Ok(self.take(u32::MAX as u64)? as u32)
    }

    pub(crate) fn take_u16(&mut self) -> Result<u16, Wrong> {
        Ok(self.take(u16::MAX as u64)? as u16)
    }

    pub(crate) fn take_u8(&mut self) -> Result<u8, Wrong> {
        Ok(self.take(u8::MAX as u64)? as u8)
    }

    pub fn take_bool(&mut self) -> Result<bool, Wrong>
        ensures { IfErr result (λ w. w.at ≤ length self.old.bytes.now) }
    {
        Ok(self.take(1)? == 1)
    }

    // A count that is at most `most`.
    pub fn take_count(&mut self, most: usize) -> Result<usize, Wrong>
        ensures { IfOk result (λ n. n ≤ most) }
    {
        Ok(self.take(most as u64)? as usize)
    }

    // One of these, by its place among them.
    pub(crate) fn take_one_of<T: Copy>(&mut self, all: &[T]) -> Result<T, Wrong>
        requires { 0 < length all.now }
    {
        let place = self.take_count(all.len() - 1)?;
        Ok(all[place])
    }

    // None, or what `take` reads.
    pub(crate) fn take_option<T, F: FnOnce(&mut Line<'a>) -> Result<T, Wrong>>(
        &mut self,
        take: F,
    ) -> Result<Option<T>, Wrong>
        requires { F.IsAlwaysCallable take }
    {
        if self.take_bool()? {
            return Ok(Some(take(self)?));
        }
        Ok(None)
    }

    // A count, and that many elements: those that the array has no place for are dropped.
    pub(crate) fn take_list<T: Drop, F: FnMut(&mut Line<'a>) -> Result<T, Wrong>>(
        &mut self,
        all: &mut [T],
        mut take: F,
    ) -> Result<usize, Wrong>
        requires { F.IsAlwaysCallable take }
    {
        let count = self.take_count(MAX_COUNT)?;
        for i in 0..count {
            let element = take(self)?;
            if i < all.len() {
                all[i] = element;
            }
        }
        Ok(count)
    }
}
