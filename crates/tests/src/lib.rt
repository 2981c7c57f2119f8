// Examples of lines with what the book answers, and of calls on a sheet.
#![tactic(auto)]

mod two;

#[cfg(test)]
mod tests {
    use crate::two::Two;
    use book::{Book, BookFault, Memory, Reply, print_reply};
    use conductors::Orders;
    use drums::{Drum, Drums};
    use kind::Kind;
    use layers::FarEnd;
    use leads::{Ends, Leads, Turn};
    use lines::LineFault;
    use sheet::{Entry, Refusal};
    use std::test::Fail;
    use table::{Answer, new_node};

    // The number by which a new book refuses a line, if it refuses it.
    fn refusal(line: &[u8]) -> Option<u8> {
        let mut memory = Memory::new();
        let mut book = Book::open(&mut memory);
        book.enter(line).err().map(|fault| fault.number())
    }

    #[test]
    fn points(rt: HostRuntime) {
        assert_eq!(rt; refusal(b"leads\tnote\t63\t0\tsame"), None);
        assert_eq!(rt; refusal(b"leads\tnote\t64\t0\tsame"), Some(5));
        assert_eq!(rt; refusal(b"leads\tnote\t0\t64\tsame"), Some(5));
        assert_eq!(rt; refusal(b"leads\tsee\t255\tplus"), Some(5));
        assert_eq!(rt; refusal(b"leads\tsee\t256\tplus"), Some(3));
        assert_eq!(rt; refusal(b"leads\tsee\t00\tplus"), Some(3));
        assert_eq!(rt; refusal(b"leads\tsee\t+1\tplus"), Some(3));
        assert_eq!(rt; refusal(b"leads\tsee\t\tplus"), Some(3));
    }

    #[test]
    fn shapes(rt: HostRuntime) {
        assert_eq!(rt; refusal(b""), Some(2));
        assert_eq!(rt; refusal(b"leads"), Some(2));
        assert_eq!(rt; refusal(b"leads\tsee\t0\tplus\t"), Some(2));
        assert_eq!(rt; refusal(b"leads\tnote\t0\t1"), Some(2));
        assert_eq!(rt; refusal(b"leads\ttell\t0\t1\tsame"), Some(2));
        assert_eq!(rt; refusal(b"wires\tnote\t0\t1\tsame"), Some(2));
        assert_eq!(rt; refusal(b"leads see 0 plus"), Some(2));
    }

    #[test]
    fn leads_words(rt: HostRuntime) {
        assert_eq!(rt; refusal(b"leads\tnote\t0\t1\tsame"), None);
        assert_eq!(rt; refusal(b"leads\tnote\t0\t1\tcrossed"), None);
        assert_eq!(rt; refusal(b"leads\tnote\t0\t1\tSame"), Some(4));
        assert_eq!(rt; refusal(b"leads\tnote\t0\t1\tplus"), Some(4));
        assert_eq!(rt; refusal(b"leads\tsee\t0\tplus"), None);
        assert_eq!(rt; refusal(b"leads\tsee\t0\tminus"), None);
        assert_eq!(rt; refusal(b"leads\tsee\t0\tany"), None);
        assert_eq!(rt; refusal(b"leads\tsee\t0\tnone"), Some(6));
        assert_eq!(rt; refusal(b"leads\tsee\t0\tcrossed"), Some(4));
        assert_eq!(rt; refusal(b"leads\tsee\t64\tminu"), Some(4));
        assert_eq!(rt; refusal(b"leads\tsee\t256\tminu"), Some(3));
    }

    #[test]
    fn phases_relations(rt: HostRuntime) {
        assert_eq!(rt; refusal(b"phases\tnote\t0\t1\t123"), None);
        assert_eq!(rt; refusal(b"phases\tnote\t0\t1\t132"), None);
        assert_eq!(rt; refusal(b"phases\tnote\t0\t1\t213"), None);
        assert_eq!(rt; refusal(b"phases\tnote\t0\t1\t231"), None);
        assert_eq!(rt; refusal(b"phases\tnote\t0\t1\t312"), None);
        assert_eq!(rt; refusal(b"phases\tnote\t0\t1\t321"), None);
        assert_eq!(rt; refusal(b"phases\tnote\t0\t1\t112"), Some(4));
        assert_eq!(rt; refusal(b"phases\tnote\t0\t1\t012"), Some(4));
        assert_eq!(rt; refusal(b"phases\tnote\t0\t1\t214"), Some(4));
        assert_eq!(rt; refusal(b"phases\tnote\t0\t1\t12"), Some(4));
        assert_eq!(rt; refusal(b"phases\tnote\t0\t1\t1234"), Some(4));
        assert_eq!(rt; refusal(b"phases\tnote\t0\t1\t"), Some(4));
        assert_eq!(rt; refusal(b"phases\tnote\t0\t1\tany"), Some(4));
    }

    #[test]
    fn phases_sets(rt: HostRuntime) {
        assert_eq!(rt; refusal(b"phases\tsee\t0\t1"), None);
        assert_eq!(rt; refusal(b"phases\tsee\t0\t2"), None);
        assert_eq!(rt; refusal(b"phases\tsee\t0\t3"), None);
        assert_eq!(rt; refusal(b"phases\tsee\t0\t12"), None);
        assert_eq!(rt; refusal(b"phases\tsee\t0\t13"), None);
        assert_eq!(rt; refusal(b"phases\tsee\t0\t23"), None);
        assert_eq!(rt; refusal(b"phases\tsee\t0\tany"), None);
        assert_eq!(rt; refusal(b"phases\tsee\t0\tnone"), Some(6));
        assert_eq!(rt; refusal(b"phases\tsee\t0\t123"), Some(4));
        assert_eq!(rt; refusal(b"phases\tsee\t0\t21"), Some(4));
        assert_eq!(rt; refusal(b"phases\tsee\t0\t11"), Some(4));
        assert_eq!(rt; refusal(b"phases\tsee\t0\t4"), Some(4));
        assert_eq!(rt; refusal(b"phases\tsee\t0\t"), Some(4));
        assert_eq!(rt; refusal(b"phases\tsee\t0\ta"), Some(4));
    }

    #[test]
    fn drums_relations(rt: HostRuntime) {
        assert_eq!(rt; refusal(b"drums\tnote\t0\t1\t1|0"), None);
        assert_eq!(rt; refusal(b"drums\tnote\t0\t1\t250|250"), None);
        assert_eq!(rt; refusal(b"drums\tnote\t0\t1\t0|4"), Some(4));
        assert_eq!(rt; refusal(b"drums\tnote\t0\t1\t251|0"), Some(4));
        assert_eq!(rt; refusal(b"drums\tnote\t0\t1\t1|251"), Some(4));
        assert_eq!(rt; refusal(b"drums\tnote\t0\t1\t01|2"), Some(4));
        assert_eq!(rt; refusal(b"drums\tnote\t0\t1\t1|02"), Some(4));
        assert_eq!(rt; refusal(b"drums\tnote\t0\t1\t1|"), Some(4));
        assert_eq!(rt; refusal(b"drums\tnote\t0\t1\t|1"), Some(4));
        assert_eq!(rt; refusal(b"drums\tnote\t0\t1\t1"), Some(4));
        assert_eq!(rt; refusal(b"drums\tnote\t0\t1\t1|2|3"), Some(4));
        assert_eq!(rt; refusal(b"drums\tnote\t0\t1\t-1|2"), Some(4));
        assert_eq!(rt; refusal(b"drums\tnote\t0\t1\t4294967297|2"), Some(4));
    }

    #[test]
    fn drums_sets(rt: HostRuntime) {
        assert_eq!(rt; refusal(b"drums\tsee\t0\t0"), None);
        assert_eq!(rt; refusal(b"drums\tsee\t0\t250"), None);
        assert_eq!(rt; refusal(b"drums\tsee\t0\tany"), None);
        assert_eq!(rt; refusal(b"drums\tsee\t0\tnone"), Some(6));
        assert_eq!(rt; refusal(b"drums\tsee\t0\t251"), Some(4));
        assert_eq!(rt; refusal(b"drums\tsee\t0\t00"), Some(4));
        assert_eq!(rt; refusal(b"drums\tsee\t0\t-1"), Some(4));
        assert_eq!(rt; refusal(b"drums\tsee\t0\t1|0"), Some(4));
    }

    #[test]
    fn temps_words(rt: HostRuntime) {
        assert_eq!(rt; refusal(b"temps\tnote\t0\t1\t0"), None);
        assert_eq!(rt; refusal(b"temps\tnote\t0\t1\t2147483647"), None);
        assert_eq!(rt; refusal(b"temps\tnote\t0\t1\t-2147483648"), None);
        assert_eq!(rt; refusal(b"temps\tnote\t0\t1\t2147483648"), Some(4));
        assert_eq!(rt; refusal(b"temps\tnote\t0\t1\t-2147483649"), Some(4));
        assert_eq!(rt; refusal(b"temps\tnote\t0\t1\t-0"), Some(4));
        assert_eq!(rt; refusal(b"temps\tnote\t0\t1\t+5"), Some(4));
        assert_eq!(rt; refusal(b"temps\tnote\t0\t1\t05"), Some(4));
        assert_eq!(rt; refusal(b"temps\tnote\t0\t1\t-05"), Some(4));
        assert_eq!(rt; refusal(b"temps\tnote\t0\t1\t--5"), Some(4));
        assert_eq!(rt; refusal(b"temps\tnote\t0\t1\t-"), Some(4));
        assert_eq!(rt; refusal(b"temps\tnote\t0\t1\t"), Some(4));
        assert_eq!(rt; refusal(b"temps\tsee\t0\t-1"), None);
        assert_eq!(rt; refusal(b"temps\tsee\t0\tany"), None);
        assert_eq!(rt; refusal(b"temps\tsee\t0\tnone"), Some(6));
        assert_eq!(rt; refusal(b"temps\tsee\t0\t4294967295"), Some(4));
    }

    #[test]
    fn lengths(rt: HostRuntime) {
        let long = [b'x'; 65];
        assert_eq!(rt; refusal(&long), Some(1));
        assert_eq!(rt; refusal(&long[0..64]), Some(2));
    }

    #[test]
    fn one_loop(rt: HostRuntime) {
        let mut memory = Memory::new();
        let mut book = Book::open(&mut memory);
        assert_eq!(rt;
            book.enter(b"leads\tnote\t0\t1\tcrossed"),
            Ok(Reply::Accepted)
        );
        assert_eq!(rt;
            book.enter(b"leads\task\t1\t0\tsame"),
            Ok(Reply::Answered(Answer::Barred))
        );
        assert_eq!(rt;
            book.enter(b"leads\task\t1\t2\tsame"),
            Ok(Reply::Answered(Answer::Open))
        );
        assert_eq!(rt;
            book.enter(b"leads\tnote\t1\t0\tsame"),
            Err(BookFault::Call(Refusal::Contrary))
        );
        assert_eq!(rt; book.enter(b"leads\tsee\t0\tplus"), Ok(Reply::Accepted));
        assert_eq!(rt;
            book.enter(b"leads\tsee\t1\tplus"),
            Err(BookFault::Call(Refusal::Contrary))
        );
        assert_eq!(rt;
            book.enter(b"leads\task\t0\t1\tcrossed"),
            Ok(Reply::Answered(Answer::Holds))
        );
        assert_eq!(rt;
            book.enter(b"leads\tlist"),
            Err(BookFault::Read(LineFault::Shape))
        );
    }

    #[test]
    fn loops_narrow(rt: HostRuntime) {
        let mut memory = Memory::new();
        let mut book = Book::open(&mut memory);
        assert_eq!(rt; book.enter(b"drums\tnote\t0\t1\t2|3"), Ok(Reply::Accepted));
        assert_eq!(rt; book.enter(b"drums\tnote\t0\t1\t4|1"), Ok(Reply::Accepted));
        assert_eq!(rt;
            book.enter(b"drums\tsee\t0\t0"),
            Err(BookFault::Call(Refusal::Contrary))
        );
        assert_eq!(rt; book.enter(b"drums\tsee\t1\t5"), Ok(Reply::Accepted));
        assert_eq!(rt;
            book.enter(b"drums\task\t0\t0\t250|2"),
            Ok(Reply::Answered(Answer::Holds))
        );
        assert_eq!(rt; book.enter(b"phases\tnote\t0\t0\t213"), Ok(Reply::Accepted));
        assert_eq!(rt;
            book.enter(b"phases\tsee\t0\t12"),
            Err(BookFault::Call(Refusal::Contrary))
        );
        assert_eq!(rt;
            book.enter(b"phases\tnote\t1\t1\t231"),
            Err(BookFault::Call(Refusal::Contrary))
        );
    }

    #[test]
    fn offsets_wrap(rt: HostRuntime) {
        let mut memory = Memory::new();
        let mut book = Book::open(&mut memory);
        assert_eq!(rt;
            book.enter(b"temps\tnote\t0\t1\t2147483647"),
            Ok(Reply::Accepted)
        );
        assert_eq!(rt; book.enter(b"temps\tnote\t1\t2\t1"), Ok(Reply::Accepted));
        assert_eq!(rt;
            book.enter(b"temps\task\t0\t2\t-2147483648"),
            Ok(Reply::Answered(Answer::Holds))
        );
        assert_eq!(rt;
            book.enter(b"temps\task\t2\t0\t-2147483648"),
            Ok(Reply::Answered(Answer::Holds))
        );
        assert_eq!(rt;
            book.enter(b"temps\tnote\t2\t2\t1"),
            Err(BookFault::Call(Refusal::Contrary))
        );
    }

    #[test]
    fn sheets_are_apart(rt: HostRuntime) {
        let mut memory = Memory::new();
        let mut book = Book::open(&mut memory);
        assert_eq!(rt; book.enter(b"drums\tsee\t0\t1"), Ok(Reply::Accepted));
        assert_eq!(rt; book.enter(b"temps\tsee\t0\t2"), Ok(Reply::Accepted));
        assert_eq!(rt; book.enter(b"phases\tsee\t0\t3"), Ok(Reply::Accepted));
        assert_eq!(rt; book.enter(b"leads\tsee\t0\tplus"), Ok(Reply::Accepted));
        assert_eq!(rt;
            book.enter(b"drums\tsee\t0\t2"),
            Err(BookFault::Call(Refusal::Contrary))
        );
    }

    #[test]
    fn pinned_points(rt: HostRuntime) -> Result<(), Fail> {
        let mut memory = Memory::new();
        let mut book = Book::open(&mut memory);
        let mut out = Vec::new(rt.alloc());
        print_reply(&mut out, 1, book.enter(b"leads\task\t0\t1\tsame"))?;
        print_reply(&mut out, 2, book.enter(b"leads\tsee\t0\tplus"))?;
        print_reply(&mut out, 3, book.enter(b"leads\tsee\t1\tplus"))?;
        print_reply(&mut out, 10, book.enter(b"leads\task\t0\t1\tsame"))?;
        print_reply(&mut out, 65536, book.enter(b"leads\tsee\t1\tminus"))?;
        assert!(rt;
            out.as_slice() == b"1\topen\n2\tok\n3\tok\n10\tholds\n65536\trefused\t6\n".as_slice()
        );
        Ok(())
    }

    #[test]
    fn faults_in_words(rt: HostRuntime) -> Result<(), Fail> {
        let long = LineFault::Long.to_string(rt.alloc())?;
        assert!(rt; long.as_str() == "the line has more than 64 bytes");
        let point = LineFault::Point.to_string(rt.alloc())?;
        assert!(rt; point.as_str() == "a point is not a number from 0 to 255");
        Ok(())
    }

    #[test]
    fn on_a_sheet(rt: HostRuntime) -> Result<(), Fail> {
        let node = new_node::<Leads>(0);
        let mut nodes = [node; 8];
        let mut log = [Entry { point: 0, node }; 16];
        let mut sheet = sheet::open::<Leads>(&mut nodes, &mut log, 1);
        assert_eq!(rt; sheet.note(0, 1, Turn::Crossed), Ok(()));
        assert_eq!(rt; sheet.see(1, Ends::PLUS), Ok(()));
        assert_eq!(rt; sheet.ask(0, 1, Turn::Same), Ok(Answer::Barred));
        assert_eq!(rt; sheet.note(8, 0, Turn::Same), Err(Refusal::OffSheet));
        let left = sheet.look(0)?;
        assert!(rt; left.minus && !left.plus);
        Ok(())
    }

    #[test]
    fn on_a_drums_sheet(rt: HostRuntime) -> Result<(), Fail> {
        let node = new_node::<FarEnd<Drums>>(0);
        let mut nodes = [node; 2];
        let mut log = [Entry { point: 0, node }; 2];
        let mut sheet = sheet::open::<FarEnd<Drums>>(&mut nodes, &mut log, 2);
        let twice = Drum {
            multiplier: 2,
            addend: 3,
        };
        let fourfold = Drum {
            multiplier: 4,
            addend: 1,
        };
        assert_eq!(rt; sheet.note(0, 1, twice.number()), Ok(()));
        assert_eq!(rt; sheet.note(0, 1, fourfold.number()), Ok(()));
        let one = FarEnd::<Drums>::set_word(sheet.look(0)?);
        assert!(rt; one.as_slice() == b"1".as_slice());
        let five = FarEnd::<Drums>::set_word(sheet.look(1)?);
        assert!(rt; five.as_slice() == b"5".as_slice());
        Ok(())
    }

    #[test]
    fn two_conductors(rt: HostRuntime) -> Result<(), Fail> {
        let node = new_node::<Orders<Two>>(0);
        let mut nodes = [node; 3];
        let mut log = [Entry { point: 0, node }; 2];
        let mut sheet = sheet::open::<Orders<Two>>(&mut nodes, &mut log, 4);
        let swapped = Orders::<Two>::read_relation(b"21")?;
        assert_eq!(rt; sheet.note(0, 1, swapped), Ok(()));
        assert_eq!(rt; sheet.note(1, 2, swapped), Ok(()));
        assert_eq!(rt; sheet.ask(0, 2, swapped), Ok(Answer::Barred));
        assert_eq!(rt; sheet.see(2, Orders::<Two>::read_set(b"2")?), Ok(()));
        let left = Orders::<Two>::set_word(sheet.look(0)?);
        assert!(rt; left.as_slice() == b"2".as_slice());
        Ok(())
    }
}
