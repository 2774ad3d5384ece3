// Meters, the cost models of a machine: the trait with its laws, the card and the digit meter.
#![tactic(auto)]

pub mod card;
pub mod digit;
pub mod meter;

#[cfg(test)]
mod tests {
    use crate::card::Card;
    use crate::digit::Digit;
    use crate::meter::Meter;
    use std::test::Fail;

    #[test]
    fn refused_filling_keeps_the_earlier(rt: HostRuntime) -> Result<(), Fail> {
        let mut card = Card::new();
        assert_eq!(rt; card.charge(1, 0, 0), 0);
        card.fill(&[1000, 2, 3, 4, 5, 6, 7, 8, 9, 10, 11, 12])?;
        assert_eq!(rt; card.charge(1, 0, 0), 1000);
        assert!(rt; card.fill(&[0, 0, 0, 0, 0, 0, 0, 0, 0, 0, 0, 1001]).is_err());
        assert_eq!(rt; card.charge(1, 0, 0), 1000);
        assert_eq!(rt; card.charge(12, 0, 0), 12);
        assert_eq!(rt; card.charge(0, 0, 0), 0);
        assert_eq!(rt; card.charge(13, 0, 0), 0);
        Ok(())
    }

    #[test]
    fn digits_count_bits(rt: HostRuntime) {
        assert_eq!(rt; Digit.charge(6, 0, -1), 33);
        assert_eq!(rt; Digit.charge(6, 0, 7), 4);
        assert_eq!(rt; Digit.charge(6, 7, 8), 2);
        assert_eq!(rt; Digit.charge(6, 0, i32::MIN), 2);
        assert_eq!(rt; Digit.charge(7, 8, 0), 5);
        assert_eq!(rt; Digit.charge(7, 0, 8), 1);
        assert_eq!(rt; Digit.charge(7, i32::MIN, 0), 33);
        assert!(rt; !Digit.steady(6) && !Digit.steady(7) && Digit.steady(8));
        assert_eq!(rt; Digit.charge(13, 1, 1), 0);
    }
}
