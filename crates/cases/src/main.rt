//! Tries the library on the numbers of the version in another language, a line each, and says how many came out otherwise.
//! The lines are of fields alone.
#![tactic(auto)]

use lines::{field_line_holds, tally};
use std::io;

fn main(rt: HostRuntime) -> io::Result<()> {
    // A closure: the check finds no contract of another crate's function that is given as a value.
    tally(&rt, |line| field_line_holds(line))
}

#[cfg(test)]
mod tests {
    use field::{Field, PowerTable, Shift, Tower, standard_polynomial};

    #[test]
    fn worked_products(rt: HostRuntime) {
        assert_eq!(rt; Shift::new(7).product(2, 2), 3);
        assert_eq!(rt; Shift::new(7).product(2, 3), 1);
        assert_eq!(rt; Shift::new(19).product(8, 2), 3);
        assert_eq!(rt; Shift::new(283).product(128, 2), 27);
    }

    #[test]
    fn sound_and_not(rt: HostRuntime) {
        assert!(rt; Shift::new(31).sound());
        assert!(rt; !Shift::new(5).sound());
        assert!(rt; PowerTable::new(19, 2).sound());
        assert!(rt; !PowerTable::new(31, 2).sound());
    }

    #[test]
    fn a_tower_of_four(rt: HostRuntime) {
        let tower = Tower::new(Shift::new(2), 1);
        let shift = Shift::new(7);
        for a in 0..4u8 {
            for b in 0..4u8 {
                assert_eq!(rt; tower.product(a, b), shift.product(a, b));
            }
        }
    }

    #[test]
    fn towers_sound_and_not(rt: HostRuntime) {
        let four = Tower::new(Shift::new(2), 1);
        assert!(rt; four.sound());
        assert!(rt; !Tower::new(four, 1).sound());
        let sixteen = Tower::new(four, 2);
        assert!(rt; sixteen.sound());
        assert!(rt; Tower::new(sixteen, 8).sound());
        assert!(rt; !Tower::new(sixteen, 4).sound());
    }

    #[test]
    fn standard_polynomials(rt: HostRuntime) {
        assert_eq!(rt; standard_polynomial(0), None);
        assert_eq!(rt; standard_polynomial(1), Some(2));
        assert_eq!(rt; standard_polynomial(8), Some(283));
        assert_eq!(rt; standard_polynomial(9), None);
    }
}
