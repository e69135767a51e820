// Tests of call lines and of the answers to them. What is expected is worked out by hand from docs/FORMATS.md.
#![tactic(auto)]

#[cfg(test)]
mod tests {
    use commands::{Fault, Line, Request, read_request, reply_to};
    use rules::{Call, Limits, Move, Refusal};
    use std::alloc::{AllocError, Global};
    use std::test::Fail;
    use text::{is_passed_over, read_call, read_number};

    #[test]
    fn every_form(rt: HostRuntime) {
        assert_eq!(rt; read_call(b"sit 0"), Ok(Call::Sit(0)));
        assert_eq!(rt; read_call(b"ticks 5"), Ok(Call::Ticks(5)));
        assert_eq!(rt; read_call(b"see 2"), Ok(Call::See(2)));
        assert_eq!(rt; read_call(b"may 3"), Ok(Call::May(3)));
        let back = Call::Back { table: 1, moves: 2 };
        assert_eq!(rt; read_call(b"back 1 2"), Ok(back));
        let played = Move {
            rule: 2,
            first: 3,
            second: 4,
        };
        let play = Call::Play {
            table: 0,
            player: 1,
            played,
        };
        assert_eq!(rt; read_call(b"play 0 1 2 3 4"), Ok(play));
        let force = Call::CanForce {
            table: 5,
            player: 6,
            gain: 7,
            within: 8,
        };
        assert_eq!(rt; read_call(b"can force 5 6 7 8"), Ok(force));
        assert_eq!(rt; read_call(b"can \t force 5 6 7 8"), Ok(force));
    }

    #[test]
    fn numbers(rt: HostRuntime) {
        assert_eq!(rt; read_call(b"see 4294967295"), Ok(Call::See(4294967295)));
        assert_eq!(rt; read_call(b"see 4294967296"), Err(13));
        assert_eq!(rt; read_call(b"see 42949672950"), Err(14));
        assert_eq!(rt; read_call(b"see 000000000000000007"), Ok(Call::See(7)));
        assert_eq!(rt; read_call(b"\tsee\t7 \t"), Ok(Call::See(7)));
        assert_eq!(rt; read_call(b"see +7"), Err(4));
        assert_eq!(rt; read_call(b"see 7x"), Err(5));
        assert_eq!(rt; read_number(b"0"), Some(0));
        assert_eq!(rt; read_number(b"0016"), Some(16));
        assert_eq!(rt; read_number(b"4294967295"), Some(4294967295));
        assert_eq!(rt; read_number(b"4294967296"), None);
        assert_eq!(rt; read_number(b""), None);
        assert_eq!(rt; read_number(b"+3"), None);
        assert_eq!(rt; read_number(b"3 "), None);
    }

    #[test]
    fn places(rt: HostRuntime) {
        assert_eq!(rt; read_call(b""), Err(0));
        assert_eq!(rt; read_call(b"   "), Err(3));
        assert_eq!(rt; read_call(b"s"), Err(1));
        assert_eq!(rt; read_call(b"sea 1"), Err(2));
        assert_eq!(rt; read_call(b"sit"), Err(3));
        assert_eq!(rt; read_call(b"sit "), Err(4));
        assert_eq!(rt; read_call(b"sits 1"), Err(3));
        assert_eq!(rt; read_call(b"sit 1 2"), Err(6));
        assert_eq!(rt; read_call(b"back 0"), Err(6));
        assert_eq!(rt; read_call(b"canforce 0 1 2 3"), Err(3));
        assert_eq!(rt; read_call(b"can forced 1"), Err(9));
        assert_eq!(rt; read_call(b"play 0 1 2 3 4 5"), Err(15));
        assert_eq!(rt; read_call(b"see 1\r"), Err(5));
        assert_eq!(rt; read_call(b"\xff\xfe"), Err(0));
        assert_eq!(rt; read_call(b"ma\xc3\xbf"), Err(2));
    }

    #[test]
    fn lines_passed_over(rt: HostRuntime) {
        assert!(rt; is_passed_over(b""));
        assert!(rt; is_passed_over(b" \t "));
        assert!(rt; is_passed_over(b"# sit 0"));
        assert!(rt; is_passed_over(b"  #"));
        assert!(rt; !is_passed_over(b"sit 0 # no comment"));
        assert!(rt; !is_passed_over(b"\xff"));
        assert_eq!(rt; reply_to(b"\n"), Line::Nothing);
        assert_eq!(rt; reply_to(b"\r\n"), Line::Nothing);
        assert_eq!(rt; reply_to(b"# note\r\n"), Line::Nothing);
    }

    #[test]
    fn replies(rt: HostRuntime) {
        // by the numbers that are told
        let cannot = Line::Call(Refusal {
            number: 2,
            place: 0,
        });
        let too_deep = Line::Call(Refusal {
            number: 2,
            place: 3,
        });
        assert_eq!(rt; reply_to(b"sit 0\n"), cannot);
        assert_eq!(rt; reply_to(b"sit 0\r\n"), cannot);
        assert_eq!(rt; reply_to(b"sit 0"), cannot);
        assert_eq!(rt; reply_to(b"can force 0 0 0 64\n"), cannot);
        assert_eq!(rt; reply_to(b"can force 0 0 0 65\n"), too_deep);
        assert_eq!(rt; reply_to(b"sit 0\r\r\n"), Line::NoCall(5));
        assert_eq!(rt; reply_to(b"\r\r\n"), Line::NoCall(0));
        assert_eq!(rt; reply_to(b"sit 0 \n"), cannot);
    }

    #[test]
    fn lines_of_bytes(rt: HostRuntime) {
        let cannot = Line::Call(Refusal {
            number: 2,
            place: 0,
        });
        let too_deep = Line::Call(Refusal {
            number: 2,
            place: 3,
        });
        assert_eq!(rt; reply_to(b"bytes 03 00 00 00 00"), cannot);
        assert_eq!(rt;
            reply_to(b" bytes\t06 00 00 00 00 00 00 00 00 00 00 00 00 41 00 00 00 \r\n"),
            too_deep
        );
        assert_eq!(rt; reply_to(b"bytes"), Line::NoCall(0));
        assert_eq!(rt; reply_to(b"bytes 07"), Line::NoCall(0));
        assert_eq!(rt; reply_to(b"bytes  FF"), Line::NoCall(0));
        assert_eq!(rt; reply_to(b"bytes 03 00"), Line::NoCall(2));
        assert_eq!(rt; reply_to(b"bytes 00 01 00 00 00 09"), Line::NoCall(5));
        assert_eq!(rt; reply_to(b"bytes 0"), Line::NoCall(7));
        assert_eq!(rt; reply_to(b"bytes 0g"), Line::NoCall(7));
        assert_eq!(rt; reply_to(b"bytes 000"), Line::NoCall(8));
        assert_eq!(rt; reply_to(b"byte"), Line::NoCall(4));
    }

    // One byte more than any call has, and then more than are kept.
    #[test]
    fn long_lines_of_bytes(rt: HostRuntime) {
        let long = b"bytes 01 00 00 00 00 00 00 00 00 00 00 00 00 00 00 00 00 00 00 00 00 aF";
        assert_eq!(rt; reply_to(long), Line::NoCall(21));
        let longer =
            b"bytes 01 00 00 00 00 00 00 00 00 00 00 00 00 00 00 00 00 00 00 00 00 00 00 Fe";
        assert_eq!(rt; reply_to(longer), Line::NoCall(21));
    }

    // What the words of a line ask for.
    fn asked(heap: Global, line: &str) -> Result<Result<Request, Fault>, AllocError> {
        let mut words: Vec<String> = Vec::new(heap);
        for word in line.split(' ') {
            words.push(String::from_str(heap, word)?)?;
        }
        Ok(read_request(words.as_slice()))
    }

    #[test]
    fn options(rt: HostRuntime) -> Result<(), Fail> {
        let heap = rt.alloc();
        let limits = Limits {
            tables: 16,
            moves: 1000,
            positions: 256,
        };
        let game = 0;
        let calls = None;
        let plain = Request::Run {
            limits,
            game,
            calls,
        };
        assert_eq!(rt; asked(heap, "a.game")?, Ok(plain));
        let limits = Limits {
            tables: 3,
            moves: 4,
            positions: 5,
        };
        let all = Request::Run {
            limits,
            game: 2,
            calls: Some(7),
        };
        assert_eq!(rt;
            asked(heap, "--tables 3 g --moves 4 --positions 5 c")?,
            Ok(all)
        );
        assert_eq!(rt; asked(heap, "--help")?, Ok(Request::Help));
        assert_eq!(rt; asked(heap, "a b c")?, Err(Fault::ExtraFile(2)));
        assert_eq!(rt; asked(heap, "a --table 3")?, Err(Fault::UnknownOption(1)));
        assert_eq!(rt; asked(heap, "--moves -1 a")?, Err(Fault::BadNumber(1)));
        assert_eq!(rt; asked(heap, "a --moves")?, Err(Fault::MissingNumber));
        assert_eq!(rt; asked(heap, "--moves 7")?, Err(Fault::MissingGame));
        Ok(())
    }
}
