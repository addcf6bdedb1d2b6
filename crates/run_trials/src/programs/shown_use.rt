//! The runs that `README.md` shows, some more, and what they print. A test reads no files, so the module and the
//! values of its first example stand here too, word for word as in `examples/`. What `convert` writes of them is
//! put together by X.690, clauses 8.1 and 10.

use super::printed::{Runs, is_so, line_of};
use std::alloc::Global;
use std::test::Fail;
use test_tables::{Table, check, two};

// `examples/calls.asn`.
const CALLS: &str = "-- The records of a telephone exchange: one for each call.
Calls DEFINITIONS IMPLICIT TAGS ::= BEGIN

Call ::= [APPLICATION 1] SET {
    caller    [0] Number,
    called    [1] Party,
    started   [2] GeneralizedTime,
    seconds   [3] INTEGER DEFAULT 0,
    outcome   [4] ENUMERATED { answered, busy, noAnswer(5) } DEFAULT answered,
    services  [5] SET OF OBJECT IDENTIFIER OPTIONAL,
    note      [6] UTF8String OPTIONAL
}

Party ::= CHOICE {
    number     Number,
    name       [1] PrintableString,
    emergency  [2] NULL
}

Number ::= [APPLICATION 2] NumericString

END
";

// `examples/calls.hex`.
const VALUES: &str = "61 80
  83 81 01 2a
  a0 80  04 03 35 35 35  04 04 30 31 32 33  00 00
  a1 80  42 07 35 35 35 30 31 39 39  00 00
  82 0f 32 30 32 36 30 33 30 31 30 39 33 30 31 35 5a
  84 01 00
  a5 0b  06 04 2a 03 04 05  06 03 2a 03 04
  86 0b 63 61 6c 6c 20 62 6f 78 20 31 32
00 00
61 23
  80 07 35 35 35 30 31 32 33
  a1 02  82 00
  82 11 32 30 32 36 30 33 30 31 31 30 34 35 30 30 2e 35 5a
  84 01 01
";

// Over these values: words | what is printed.
struct Calls;

impl Table for Calls {
    fn holds(&self, alloc: Global, row: &str) -> Result<bool, Fail> {
        let (words, printed) = two(row)?;
        let line = line_of(alloc, words)?;
        let columns = format!(in alloc; "{VALUES}|{printed}|| 0")?;
        is_so(alloc, &line, CALLS, columns.as_str())
    }
}

const OVER_CALLS: &str = "\
check,calls.asn,Call,calls.hex,--hex | ok 2;
show,calls.asn,Call,calls.hex,--hex  | { caller \"5550123\", called number : \"5550199\", started \"20260301093015Z\", seconds 42, services { 1.2.3.4, 1.2.3.4.5 }, note \"call box 12\" };{ caller \"5550123\", called emergency : NULL, started \"20260301104500.5Z\", outcome busy };
convert,calls.asn,Call,calls.hex,--hex,--to,der | 6142800735353530313233a109420735353530313939820f32303236303330313039333031355a83012aa50b06032a030406042a030405860b63616c6c20626f782031326123800735353530313233a1028200821132303236303330313130343530302e355a840101;";

#[test]
fn runs_over_calls(rt: HostRuntime) -> Result<(), Fail> {
    check(rt.alloc(), &Calls, OVER_CALLS)
}

const OVER_BUILT_IN_TYPES: &str = "\
convert,@builtin,OCTET STRING,in.hex,--hex,--to,der | 24 80 04 02 01 02 24 80 04 01 03 00 00 00 00 | 0403010203; || 0
convert,@builtin,OCTET STRING,in.hex,--hex,--to,der | 04 82 00 01 41 | 040141; || 0
convert,@builtin,INTEGER,in.hex,--hex,--to,der | 02 02 00 7f || asn1x: refused 6 Contents after 0 values; | 1
show,@builtin,BOOLEAN,- | 01 01 01 01 01 00 | TRUE;FALSE; || 0
convert,@builtin,BOOLEAN,in.hex,--hex,--from,der,--to,der | 01 01 2a || asn1x: refused 12 NotCanonical after 0 values; | 1";

const IDS: &str = "M DEFINITIONS ::= BEGIN Ids ::= SET OF OBJECT IDENTIFIER END";

const OVER_IDS: &str = "\
convert,ids.asn,Ids,in.hex,--hex,--to,der | 31 80 06 03 2a 03 04 06 02 2a 03 00 00 | 310906022a0306032a0304; || 0";

// A module on three lines, which means no type.
const CYCLE: &str = "M DEFINITIONS ::= BEGIN
  List ::= SEQUENCE OF List
END
";

const OVER_CYCLE: &str = "\
check,list.asn,List,in.hex | 02 || asn1x: module refused 25 Cycle at 2:3; | 2";

#[test]
fn other_runs(rt: HostRuntime) -> Result<(), Fail> {
    check(rt.alloc(), &Runs { module: "" }, OVER_BUILT_IN_TYPES)?;
    check(rt.alloc(), &Runs { module: IDS }, OVER_IDS)?;
    check(rt.alloc(), &Runs { module: CYCLE }, OVER_CYCLE)
}
