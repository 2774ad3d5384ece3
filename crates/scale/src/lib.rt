// Scales of security levels: the trait with its laws, the ladder and the departments.
#![tactic(auto)]

pub mod departments;
pub mod ladder;
pub mod scale;

#[cfg(test)]
mod tests {
    use crate::departments::Departments;
    use crate::ladder::Ladder;
    use crate::scale::Scale;
    use std::test::Fail;

    #[test]
    fn ladder_limits(rt: HostRuntime) -> Result<(), Fail> {
        assert!(rt; Ladder::new(0).is_err());
        assert!(rt; Ladder::new(257).is_err());
        let shortest = Ladder::new(1)?;
        assert!(rt; shortest.known(0) && !shortest.known(1));
        let longest = Ladder::new(256)?;
        assert!(rt; longest.known(255) && !longest.known(256));
        assert_eq!(rt; longest.join(3, 255), 255);
        assert_eq!(rt; longest.join(3, 256), 0);
        assert!(rt; !longest.at_or_below(256, 256));
        Ok(())
    }

    #[test]
    fn departments_limits(rt: HostRuntime) -> Result<(), Fail> {
        assert!(rt; Departments::new(9).is_err());
        let none = Departments::new(0)?;
        assert!(rt; none.known(0) && !none.known(1));
        let all = Departments::new(8)?;
        assert!(rt; all.known(255) && !all.known(256));
        assert!(rt; all.at_or_below(0b1000_0010, 0b1100_0010));
        assert!(rt; !all.at_or_below(0b1000_0010, 0b0111_1111));
        assert_eq!(rt; all.join(0b1000_0010, 0b0100_0010), 0b1100_0010);
        Ok(())
    }
}
