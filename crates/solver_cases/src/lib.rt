// Examples of what `solver` says, and of how it is told.
#![tactic(auto)]

#[cfg(test)]
mod tests {
    use solver::{NotYet, Outcome, solve, tell};
    use std::process::Abort;
    use std::test::Fail;

    // A byte that stands in no line, to see what is left as it was.
    const FREE: u8 = b'#';

    // Tells the outcome into as many bytes as `left` has, which must then hold that.
    fn tells(rt: &impl Abort, outcome: Outcome, len: Option<usize>, left: &[u8]) {
        let mut room = [FREE; 32];
        assert!(rt; left.len() <= room.len());
        let printed = &mut room[..left.len()];
        assert_eq!(rt; tell(outcome, printed), len);
        assert_eq!(rt; &printed[..], left);
    }

    #[test]
    fn nothing_is_found_out(rt: HostRuntime) {
        assert_eq!(rt; solve(b"least 1\n"), Outcome::TooLong);
        assert_eq!(rt; solve(b""), Outcome::TooLong);
    }

    #[test]
    fn costs(rt: HostRuntime) {
        tells(&rt, Outcome::Best { cost: -120 }, Some(10), b"best -120\n");
        tells(&rt, Outcome::Best { cost: 0 }, Some(7), b"best 0\n");
        tells(
            &rt,
            Outcome::Best { cost: i64::MIN },
            Some(26),
            b"best -9223372036854775808\n",
        );
        tells(
            &rt,
            Outcome::Best { cost: i64::MAX },
            Some(25),
            b"best 9223372036854775807\n",
        );
    }

    #[test]
    fn words(rt: HostRuntime) {
        tells(&rt, Outcome::Infeasible, Some(5), b"none\n");
        tells(&rt, Outcome::TooLong, Some(9), b"too long\n");
    }

    #[test]
    fn one_byte_too_few(rt: HostRuntime) {
        tells(&rt, Outcome::Best { cost: -120 }, None, b"#########");
        tells(&rt, Outcome::Best { cost: 0 }, None, b"######");
        tells(
            &rt,
            Outcome::Best { cost: i64::MIN },
            None,
            b"#########################",
        );
        tells(
            &rt,
            Outcome::Best { cost: i64::MAX },
            None,
            b"########################",
        );
        tells(&rt, Outcome::Infeasible, None, b"####");
        tells(&rt, Outcome::TooLong, None, b"########");
        tells(&rt, Outcome::TooLong, None, b"");
    }

    #[test]
    fn more_bytes_than_the_line(rt: HostRuntime) {
        tells(
            &rt,
            Outcome::Best { cost: -120 },
            Some(10),
            b"best -120\n##",
        );
        tells(&rt, Outcome::Infeasible, Some(5), b"none\n###");
        tells(&rt, Outcome::TooLong, Some(9), b"too long\n#");
    }

    #[test]
    fn shown(rt: HostRuntime) -> Result<(), Fail> {
        let best = format!(in rt.alloc(); "{}", Outcome::Best { cost: -120 })?;
        assert_eq!(rt; best.as_str(), "best -120");
        let missing = format!(in rt.alloc(); "{}, {}", NotYet::Certificates, NotYet::Texts)?;
        assert_eq!(rt;
            missing.as_str(),
            "not there yet: no certificate can be checked, not there yet: no model can be read",
        );
        Ok(())
    }
}
