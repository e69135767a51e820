// Tests of what call lines ask, and of command lines; text_tests has how a line is read. What is expected is worked out by hand from docs/FORMATS.md.
#![tactic(auto)]

#[cfg(test)]
mod tests {
    use rules::Limits;
    use server_commands::{Fault, Line, Request, read_line, read_request};
    use std::alloc::{AllocError, Global};
    use std::test::Fail;

    #[test]
    fn lines_passed_over(rt: HostRuntime) {
        assert!(rt; asks_nothing(b""));
        assert!(rt; asks_nothing(b"\n"));
        assert!(rt; asks_nothing(b"\r\n"));
        assert!(rt; asks_nothing(b"# sit 0\r\n"));
        assert!(rt; !asks_nothing(b"sit 0\n"));
    }

    fn asks_nothing(line: &[u8]) -> bool {
        matches!(read_line(line), Line::Nothing)
    }

    // How much of a line that is no call is right.
    fn no_call(line: &[u8]) -> Option<usize> {
        match read_line(line) {
            Line::NoCall(n) => Some(n),
            _ => None,
        }
    }

    // Whether a line asks the call of just these bytes.
    fn asks(line: &[u8], bytes: &[u8]) -> bool {
        match read_line(line) {
            Line::Call(kept) => kept.as_slice() == bytes,
            _ => false,
        }
    }

    #[test]
    fn lines_of_calls(rt: HostRuntime) {
        assert!(rt; asks(b"sit 0\n", &[0, 0, 0, 0, 0]));
        assert!(rt; asks(b"sit 0\r\n", &[0, 0, 0, 0, 0]));
        assert!(rt; asks(b"sit 258", &[0, 2, 1, 0, 0]));
        let play = [
            1, 1, 0, 0, 0, 2, 0, 0, 0, 3, 0, 0, 0, 4, 0, 0, 0, 5, 0, 0, 0,
        ];
        assert!(rt; asks(b" play 1 2 3 4 5 \n", &play));
        assert!(rt; asks(b"ticks 4294967295", &[2, 255, 255, 255, 255]));
        assert!(rt; asks(b"see 2\n", &[3, 2, 0, 0, 0]));
        assert!(rt; asks(b"may 3\n", &[4, 3, 0, 0, 0]));
        assert!(rt; asks(b"back 1 2\n", &[5, 1, 0, 0, 0, 2, 0, 0, 0]));
        let force = [6, 5, 0, 0, 0, 6, 0, 0, 0, 7, 0, 0, 0, 65, 0, 0, 0];
        assert!(rt; asks(b"can force 5 6 7 65\n", &force));
        assert!(rt; !asks(b"sit 0\n", &[0, 0, 0, 0]));
        assert_eq!(rt; no_call(b"sit 0\n\n"), Some(5));
        assert_eq!(rt; no_call(b"sit 0\r\r\n"), Some(5));
        assert_eq!(rt; no_call(b"sit 0\r"), Some(5));
        assert_eq!(rt; no_call(b"\r\r\n"), Some(0));
        assert_eq!(rt; no_call(b"sea 1\n"), Some(2));
    }

    #[test]
    fn lines_of_bytes(rt: HostRuntime) {
        assert!(rt; asks(b"bytes 03 00 00 00 00", &[3, 0, 0, 0, 0]));
        assert!(rt; asks(b" bytes\t06 0a \r\n", &[6, 10]));
        assert!(rt; asks(b"bytes\n", &[]));
        assert!(rt; asks(b"bytes  FF", &[255]));
        assert_eq!(rt; no_call(b"bytes 0"), Some(7));
        assert_eq!(rt; no_call(b"bytes 0g"), Some(7));
        assert_eq!(rt; no_call(b"bytes 000"), Some(8));
        assert_eq!(rt; no_call(b"byte"), Some(4));
    }

    // One byte more than any call has, and then more than are kept.
    #[test]
    fn long_lines_of_bytes(rt: HostRuntime) {
        let mut first = [0; 22];
        first[0] = 1;
        first[21] = 175;
        let long = b"bytes 01 00 00 00 00 00 00 00 00 00 00 00 00 00 00 00 00 00 00 00 00 aF";
        assert!(rt; asks(long, &first));
        let longer =
            b"bytes 01 00 00 00 00 00 00 00 00 00 00 00 00 00 00 00 00 00 00 00 00 aF 00 Fe\n";
        assert!(rt; asks(longer, &first));
    }

    // What the words of a line ask for.
    fn asked(heap: Global, line: &str) -> Result<Result<Request, Fault>, AllocError> {
        let mut words: Vec<String> = Vec::new(heap);
        for word in line.split(' ') {
            words.push(String::from_str(heap, word)?)?;
        }
        Ok(read_request(words.as_slice()))
    }

    #[test]
    fn options(rt: HostRuntime) -> Result<(), Fail> {
        let heap = rt.alloc();
        let limits = Limits {
            tables: 16,
            moves: 1000,
            positions: 256,
        };
        let plain = Request::Run {
            limits,
            large: false,
            game: 0,
            calls: None,
        };
        assert_eq!(rt; asked(heap, "a.game")?, Ok(plain));
        let limits = Limits {
            tables: 3,
            moves: 4,
            positions: 5,
        };
        let all = Request::Run {
            limits,
            large: true,
            game: 2,
            calls: Some(8),
        };
        assert_eq!(rt;
            asked(heap, "--tables 3 g --moves 4 --large --positions 5 c")?,
            Ok(all)
        );
        assert_eq!(rt; asked(heap, "--help")?, Ok(Request::Help));
        assert_eq!(rt; asked(heap, "a b c")?, Err(Fault::ExtraFile(2)));
        assert_eq!(rt; asked(heap, "a --table 3")?, Err(Fault::UnknownOption(1)));
        assert_eq!(rt; asked(heap, "--moves -1 a")?, Err(Fault::BadNumber(1)));
        assert_eq!(rt; asked(heap, "a --moves")?, Err(Fault::MissingNumber));
        assert_eq!(rt; asked(heap, "--moves 7")?, Err(Fault::MissingGame));
        Ok(())
    }

    #[test]
    fn options_of_games(rt: HostRuntime) -> Result<(), Fail> {
        let heap = rt.alloc();
        let print = Request::Print { game: 1 };
        assert_eq!(rt; asked(heap, "--print g")?, Ok(print));
        let bytes = Request::Bytes { game: 0 };
        assert_eq!(rt; asked(heap, "g --large --bytes")?, Ok(bytes));
        let last = Request::Bytes { game: 2 };
        assert_eq!(rt; asked(heap, "--print --bytes g --moves 7")?, Ok(last));
        assert_eq!(rt; asked(heap, "--help --print a b")?, Ok(Request::Help));
        assert_eq!(rt; asked(heap, "--print a b")?, Err(Fault::ExtraFile(2)));
        assert_eq!(rt; asked(heap, "a b --bytes")?, Err(Fault::ExtraFile(1)));
        assert_eq!(rt; asked(heap, "--print")?, Err(Fault::MissingGame));
        Ok(())
    }
}
