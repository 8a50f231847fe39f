// Cards with the answers that they must print.
#![tactic(auto)]

#[cfg(test)]
mod tests {
    use runner::run_card;
    use std::process::Abort;
    use std::test::Fail;

    // The card prints these answers.
    fn prints(rt: &(impl Abort + AllocGlobal), card: &[u8], answers: &[u8]) -> Result<(), Fail> {
        let out = run_card(rt.alloc(), card).map_err(|_| Fail::new("no memory"))?;
        assert!(rt; out.as_slice() == answers);
        Ok(())
    }

    #[test]
    fn the_worked_card(rt: HostRuntime) -> Result<(), Fail> {
        prints(
            &rt,
            b"length a b c\nbind 1 -2 1 0\ngrip * 1 1\npull 1 0 0\nkeep\npull 2 0 0\nunbind 0\n",
            b"ok\nok\nok 5 5 2 -1\nok\nno 19\nok\nend\n",
        )
    }

    #[test]
    fn points(rt: HostRuntime) -> Result<(), Fail> {
        prints(
            &rt,
            b"point a b c\nbind 1 -2 1 0,0\ngrip * 1 1\npull 100,1 0,0 0,0\n",
            b"ok\nok\nok 5 500,5 200,2 -100,-1\nend\n",
        )
    }

    #[test]
    fn bindings_refused(rt: HostRuntime) -> Result<(), Fail> {
        prints(
            &rt,
            b"length a b\nbind 0 0 0\nbind 1001 0 0\nbind -1000 0 0\nbind 1 0 47560001\nbind 1 0 5\nunbind 1\nunbind -1\nunbind 0\n",
            b"no 4\nno 4\nok\nno 5\nno 6\nno 7\nno 7\nok\nend\n",
        )
    }

    #[test]
    fn twenty_four_relations(rt: HostRuntime) -> Result<(), Fail> {
        prints(
            &rt,
            b"length a\nbind 1 0\nbind 1 0\nbind 1 0\nbind 1 0\nbind 1 0\nbind 1 0\nbind 1 0\nbind 1 0\nbind 1 0\nbind 1 0\nbind 1 0\nbind 1 0\nbind 1 0\nbind 1 0\nbind 1 0\nbind 1 0\nbind 1 0\nbind 1 0\nbind 1 0\nbind 1 0\nbind 1 0\nbind 1 0\nbind 1 0\nbind 1 0\nbind 1 0\n",
            b"ok\nok\nok\nok\nok\nok\nok\nok\nok\nok\nok\nok\nok\nok\nok\nok\nok\nok\nok\nok\nok\nok\nok\nok\nno 3\nend\n",
        )
    }

    #[test]
    fn grips_refused(rt: HostRuntime) -> Result<(), Fail> {
        prints(
            &rt,
            b"length a b e\nbind 1000 999 0 0\nbind 999 -998 0 0\ngrip . ~ .\ngrip * 5 .\ngrip 12 12 *\n",
            b"ok\nok\nno 8\nno 8\nno 10\nend\n",
        )
    }

    #[test]
    fn thirteen_relations_count(rt: HostRuntime) -> Result<(), Fail> {
        prints(
            &rt,
            b"length a b\nbind 1 -1 0\nbind 1 -1 0\nbind 1 -1 0\nbind 1 -1 0\nbind 1 -1 0\nbind 1 -1 0\nbind 1 -1 0\nbind 1 -1 0\nbind 1 -1 0\nbind 1 -1 0\nbind 1 -1 0\nbind 1 -1 0\nbind 1 -1 0\ngrip * ~\nunbind 12\ngrip * ~\ndrop\n",
            b"ok\nok\nok\nok\nok\nok\nok\nok\nok\nok\nok\nok\nok\nno 9\nok\nok 1 2 3 4 5 6 7 8 9 10 11\nok\nend\n",
        )
    }

    #[test]
    fn pulls_refused(rt: HostRuntime) -> Result<(), Fail> {
        prints(
            &rt,
            b"length a b\nbind 2 -1 0\ngrip * ~\npull 47561 0\npull 23780 0\npull 23781 0\nkeep\ndrop\n",
            b"ok\nok\nno 11\nok 1 23780 47560\nno 15\nno 19\nok\nend\n",
        )
    }

    #[test]
    fn seven_pulled(rt: HostRuntime) -> Result<(), Fail> {
        prints(
            &rt,
            b"length a b c d e f g\nbind 1000 1000 1000 1000 1000 1000 1000 0\ngrip * * * * * * *\npull 47560 47560 47560 47560 47560 47560 14640\npull 47560 47560 47560 47560 47560 47560 14641\n",
            b"ok\nok 0\nno 13\nno 12\nend\n",
        )
    }

    #[test]
    fn fine_fractions(rt: HostRuntime) -> Result<(), Fail> {
        prints(
            &rt,
            b"length a b z\nbind 211 21 -1 0\ngrip 12 12 *\npull 0 0 1\ndrop\nunbind 0\nbind 212 9 -1 0\ngrip 12 12 *\npull 0 0 1\n",
            b"ok\nok\nok 44962 211 21 44962\nok\nok\nok\nok\nno 14\nend\n",
        )
    }

    #[test]
    fn calls_not_open(rt: HostRuntime) -> Result<(), Fail> {
        prints(
            &rt,
            b"length a b\npull 0 0\nkeep\ndrop\ngrip * ~\nbind 1 0 0\nunbind 0\ngrip * ~\nkeep\npull 0 0\nkeep\n",
            b"no 19\nno 19\nno 19\nok\nno 19\nno 19\nno 19\nno 19\nok 1 0 0\nok\nend\n",
        )
    }

    #[test]
    fn garbled_lines(rt: HostRuntime) -> Result<(), Fail> {
        prints(
            &rt,
            b"length a b\nbind 1 0\nbind 1  0 0\nkeep \nfree\n\nbind 01 0 0\nbind -0 0 0\nbind 123456789 0 0\ngrip * x\nbind 1 0 0",
            b"no 16\nno 16\nno 16\nno 16\nno 16\nno 16\nno 16\nno 16\nno 16\nno 16\nend\n",
        )
    }

    #[test]
    fn bad_first_lines(rt: HostRuntime) -> Result<(), Fail> {
        prints(&rt, b"", b"no 16\nend\n")?;
        prints(&rt, b"length\nbind\n", b"no 16\nend\n")?;
        prints(&rt, b"length a a\nkeep\n", b"no 16\nend\n")?;
        prints(&rt, b"area a\nkeep\n", b"no 16\nend\n")
    }

    #[test]
    fn twenty_four_loose(rt: HostRuntime) -> Result<(), Fail> {
        prints(
            &rt,
            b"length a0 a1 a2 a3 a4 a5 a6 a7 a8 a9 b0 b1 b2 b3 b4 b5 b6 b7 b8 b9 c0 c1 c2 c3 c4 c5\ngrip * ~ ~ ~ ~ ~ ~ ~ ~ ~ ~ ~ ~ ~ ~ ~ ~ ~ ~ ~ ~ ~ ~ ~ ~ ~\ngrip * . ~ ~ ~ ~ ~ ~ ~ ~ ~ ~ ~ ~ ~ ~ ~ ~ ~ ~ ~ ~ ~ ~ ~ ~\n",
            b"no 8\nok\nend\n",
        )
    }

    #[test]
    fn a_collar(rt: HostRuntime) -> Result<(), Fail> {
        prints(
            &rt,
            b"length left notch right front back\nbind 1 -2 1 0 0 0\nbind 0 0 0 1 -1 0\ngrip . ~ * ~ *\npull 0 8100 16000 3900 4000\nkeep\ngrip 2 ~ * . .\npull 0 8000 16501 0 0\nkeep\ngrip . * * . .\npull 0 8222 16501 0 0\ndrop\n",
            b"ok\nok\nok\nok 1 0 8000 16000 4000 4000\nok\nok\nok 3 -167 24668 49503 12000 12000\nok\nok 0\nno 13\nok\nend\n",
        )
    }

    #[test]
    fn longest_cards(rt: HostRuntime) -> Result<(), Fail> {
        let heap = rt.alloc();
        let mut card = b"length a\n".to_vec(heap)?;
        let mut answers = Vec::new(heap);
        for _ in 0..13_105 {
            card.extend_from_slice(b"keep\n")?;
            answers.extend_from_slice(b"no 19\n")?;
        }
        card.extend_from_slice(b"\n\n")?;
        answers.extend_from_slice(b"no 16\nno 16\nend\n")?;
        assert_eq!(rt; card.len(), 65_536);
        prints(&rt, card.as_slice(), answers.as_slice())?;
        card.push(b'\n')?;
        prints(&rt, card.as_slice(), b"no 16\nend\n")
    }
}
