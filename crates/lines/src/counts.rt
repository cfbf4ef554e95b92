//! How many lines came out as they say.
ghost use Rattle.std.specs.Prelude.{◌≡◌, ◌+◌, ◌-◌, ◌^◌, ◌++◌, min, Some, codes, if◌then◌else◌};
ghost use Rattle.std.specs.Fmt.{decimal};

use std::{fmt, io};

/// How many lines were right, and how many wrong.
#[derive(Clone, Copy)]
struct Counts {
    right: u64,
    wrong: u64,
}

impl Counts {
    // One line more; the greatest number stays.
    fn with(self, right: bool) -> Counts
        ensures right { result.right ≡ if right then min (self.right + 1) (2 ^ 64 - 1) else self.right }
        ensures wrong { result.wrong ≡ if right then self.wrong else min (self.wrong + 1) (2 ^ 64 - 1) }
    {
        if right {
            Counts {
                right: self.right.saturating_add(1),
                ..self
            }
        } else {
            Counts {
                wrong: self.wrong.saturating_add(1),
                ..self
            }
        }
    }
}

impl fmt::Display for Counts {
    ghost output = { λ c. Some (decimal c.right ++ codes " right, " ++ decimal c.wrong ++ codes " wrong") };

    fn fmt<W: fmt::Write>(&self, f: &mut fmt::Formatter<W>) -> fmt::Result {
        let right = self.right;
        let wrong = self.wrong;
        write!(f, "{right} right, {wrong} wrong")
    }
}

/// Judges each line of the input, prints those that are wrong, and then how many were right and wrong.
pub fn tally<F: Fn(&str) -> bool>(rt: &(impl Input + Print + Alloc), holds: F) -> io::Result<()>
    requires { F.IsAlwaysCallable holds }
{
    let mut counts = Counts { right: 0, wrong: 0 };
    for line in rt.lines(rt.alloc()) {
        let line = line?;
        let text = line.as_str();
        let right = holds(text);
        if !right {
            println!(rt; "wrong: {text}")?;
        }
        counts = counts.with(right);
    }
    println!(rt; "{counts}")
}
