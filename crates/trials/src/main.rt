//! Tries the library on the numbers of the version in another language, a line each, and says how many came out otherwise.
//! The lines are of fields, of scaled fields, and of blocks and maps over them.
#![tactic(auto)]

use lines::{line_holds, tally};
use std::io;

fn main(rt: HostRuntime) -> io::Result<()> {
    // A closure: the check finds no contract of another crate's function that is given as a value.
    tally(&rt, |line| line_holds(line))
}

#[cfg(test)]
mod tests {
    use blocks::{
        AffineMap, Block, BlockArithmetic, Modular, Modulus, follows_rule, raise_back,
        raise_forward,
    };
    use field::{Field, Shift};
    use lines::Scaled;

    #[test]
    fn another_one(rt: HostRuntime) {
        let scaled = Scaled::new(Shift::new(7), 2, 3);
        assert!(rt; scaled.sound());
        assert_eq!(rt; scaled.one(), 3);
        assert_eq!(rt; scaled.product(1, 1), 2);
        assert_eq!(rt; scaled.product(2, 2), 1);
        assert_eq!(rt; scaled.product(1, 2), 3);
        assert!(rt; !Scaled::new(Shift::new(7), 2, 2).sound());
    }

    #[test]
    fn a_step_and_back(rt: HostRuntime) {
        let field = Shift::new(7);
        let modulus = Modulus::new(&field, &[3, 2, 1]);
        let blocks = Modular {
            field: &field,
            modulus: &modulus,
        };
        assert!(rt; follows_rule(&field, &modulus));
        assert!(rt; blocks.size() == 3);
        let product = blocks.multiply(Block::from_bytes(&[3, 0, 2]), Block::from_bytes(&[1, 2, 3]));
        assert_eq!(rt; product, Block::from_bytes(&[2, 1, 0]));
        let raised = raise_forward(&blocks, 1, product);
        assert_ne!(rt; raised, product);
        assert_eq!(rt; raise_back(&blocks, 1, 1, raised), product);
    }

    #[test]
    fn a_map_and_its_inverse(rt: HostRuntime) {
        let field = Shift::new(7);
        let map = AffineMap::from_codes(3, &[1, 2, 3, 0, 1, 3, 0, 0, 1, 3, 3, 2]);
        let block = Block::from_bytes(&[3, 0, 2]);
        let image = Block::from_bytes(&[0, 0, 2]);
        assert_eq!(rt; map.apply(&field, block), image);
        let inverse = map.inverse(&field).expect(&rt, "the map is one to one");
        assert_eq!(rt; inverse.apply(&field, image), block);
    }

    #[test]
    fn equal_rows_have_no_inverse(rt: HostRuntime) {
        let map = AffineMap::from_codes(3, &[1, 2, 3, 3, 0, 0, 0, 3, 1, 0, 3, 1]);
        assert!(rt; map.inverse(&Shift::new(7)).is_none());
    }
}
