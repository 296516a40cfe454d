use crate::{TextFault, canon, print_value, read_value, text_len};
use json_tree::Value;
use std::alloc::Global;
use std::test::Fail;

// Texts, each with the canonical text of its value.
const READ: &str = r#"null => null
true => true
false => false
0 => 0
-0 => 0
-0.0 => 0
0.0 => 0
0e0 => 0
0e999 => 0
-0E-999 => 0
0.00e99999999999999999999999 => 0
1 => 1
-1 => -1
10 => 10
1.5 => 1.5
1.50 => 1.5
1.000 => 1
1e2 => 100
1E+2 => 100
1e-2 => 0.01
1.5e1 => 15
15e-1 => 1.5
10e-19 => 0.000000000000000001
1e-18 => 0.000000000000000001
0.1e-17 => 0.000000000000000001
1000e-21 => 0.000000000000000001
-10e-19 => -0.000000000000000001
1e19 => 10000000000000000000
99999999999999999999.999999999999999999 => 99999999999999999999.999999999999999999
-99999999999999999999.999999999999999999 => -99999999999999999999.999999999999999999
123.456000000000000000000000000 => 123.456
0.00000000000000000100000 => 0.000000000000000001
12345678901234567890.5 => 12345678901234567890.5
1e00002 => 100
1e+00 => 1
1e-00 => 1
100000000000000000000e-1 => 10000000000000000000
0.1 => 0.1
-0.5 => -0.5
2.50e+3 => 2500
9007199254740993 => 9007199254740993
123456789012345678 => 123456789012345678
1234567890123456789.012 => 1234567890123456789.012
18446744073709551615 => 18446744073709551615
18446744073709551616 => 18446744073709551616
0.123456789012345678 => 0.123456789012345678
120e-1 => 12
-7.25 => -7.25
"" => ""
"a" => "a"
" a  b " => " a  b "
"\"" => "\""
"\\" => "\\"
"\/" => "/"
"/" => "/"
"\b\f\n\r\t" => "\b\f\n\r\t"
"\u0041" => "A"
"\u00e9" => "é"
"\u00E9" => "é"
"\u20ac" => "€"
"\ud83d\ude00" => "😀"
"\uD83D\uDE00" => "😀"
"\u0000" => "\u0000"
"\u0001" => "\u0001"
"\u000B" => "\u000b"
"\u001F" => "\u001f"
"\u0010" => "\u0010"
"\u0008\u0009\u000a\u000c\u000d" => "\b\t\n\f\r"
"\u0022\u005c\u002f" => "\"\\/"
"é" => "é"
"日本" => "日本"
"😀" => "😀"
"x\u0041y\nz" => "xAy\nz"
"\\u0041" => "\\u0041"
"[1,{}]" => "[1,{}]"
[] => []
[ ] => []
[1] => [1]
[1,2] => [1,2]
[[]] => [[]]
[[],[]] => [[],[]]
[[[1]]] => [[[1]]]
[null,true,false] => [null,true,false]
["a",[1,{"b":2}]] => ["a",[1,{"b":2}]]
[-1,"",{}] => [-1,"",{}]
{} => {}
{ } => {}
{"a":1} => {"a":1}
{ "a" : 1 } => {"a":1}
{"a":1,"b":2} => {"a":1,"b":2}
{"b":1,"a":2} => {"b":1,"a":2}
{"a":1,"a":2} => {"a":2}
{"a":1,"b":2,"a":3} => {"a":3,"b":2}
{"a":1,"b":2,"a":3,"b":4} => {"a":3,"b":4}
{"":1} => {"":1}
{"a":{"a":1,"a":2}} => {"a":{"a":2}}
{"\u0061":1,"a":2} => {"a":2}
{"a":[],"a":{}} => {"a":{}}
{"a":[{"b":[]}]} => {"a":[{"b":[]}]}
{"A":1,"a":2} => {"A":1,"a":2}
{"\"":1} => {"\"":1}
{"$date":1} => {"$date":1}
{"$date":1.0} => {"$date":1}
{"$date":1e3} => {"$date":1000}
{"$date":-0} => {"$date":0}
{"$date":-1} => {"$date":-1}
{"$date":1,"$date":2} => {"$date":2}
{"$date":"x","$date":2.0} => {"$date":2}
[{"$date":0}] => [{"$date":0}]
{"$date":{"$date":1}} => {"$date":{"$date":1}}"#;

// The same, of characters that a table can hardly show.
const READ_TOO: [(&str, &str); 9] = [
    (" \t\r\nnull\n\r\t ", "null"),
    ("\"\\u007f\"", "\"\x7f\""),
    ("\"\\ud800\\udc00\"", "\"\u{10000}\""),
    ("\"\\udbff\\udfff\"", "\"\u{10ffff}\""),
    ("\"\\ud7ff\"", "\"\u{d7ff}\""),
    ("\"\\ue000\"", "\"\u{e000}\""),
    ("\"\\uffff\"", "\"\u{ffff}\""),
    ("\"\\ufeff\"", "\"\u{feff}\""),
    (" [ 1 , 2 ] ", "[1,2]"),
];

// Texts of objects, each with the milliseconds of the date that it is, if it is one.
const DATES: &str = r#"{"$date":1} => 1
{ "$date" : 1.0 } => 1
{"$date":1e3} => 1000
{"$date":-1} => -1
{"$date":9223372036854775807} => 9223372036854775807
{"$date":9223372036854775808} => none
{"$date":-9223372036854775808} => -9223372036854775808
{"$date":-9223372036854775809} => none
{"$date":1.5} => none
{"$date":0.000000000000000001} => none
{"$date":"1"} => none
{"$date":null} => none
{"$date":[1]} => none
{"$date":1,"a":2} => none
{"a":2,"$date":1} => none
{"$date":1,"$date":2} => 2
{"\u0024date":5} => 5
{"$Date":1} => none
{"date":1} => none
{"$date":{"$date":1}} => none"#;

// Texts that RFC 8259 doesn't allow, each with the offset of the first token that is not allowed.
const MALFORMED: &str = r#"1 2 => 2
1,2 => 1
null null => 5
[1]x => 3
[]] => 2
{}} => 2
"a""b" => 3
true1 => 4
true"a" => 4
nul => 0
nulll => 0
nullnull => 0
tru => 0
True => 0
tRue => 0
NaN => 0
Infinity => 0
undefined => 0
'a' => 0
//c => 0
/* */1 => 0
1 // x => 2
# => 0
@ => 0
é => 0
[é] => 1
1é => 1
01 => 0
-01 => 0
00 => 0
1. => 0
1.e5 => 0
.5 => 0
-.5 => 0
1e => 0
1e+ => 0
1e- => 0
- => 0
--1 => 0
+1 => 0
1-2 => 0
1+2 => 0
1.2.3 => 0
2..3 => 0
1e5e5 => 0
1e1.5 => 0
1ee5 => 0
-Infinity => 0
0x10 => 1
1a => 1
[1,01] => 3
[-] => 1
- 1 => 0
1_000 => 1
" => 0
"abc => 0
"\ => 0
"\" => 0
"\x" => 0
"\u12" => 0
"\u12g4" => 0
"\u 041" => 0
"\u+041" => 0
"\U0041" => 0
"\u123 => 0
"\ud800" => 0
"\udc00" => 0
"\ud800\ud800" => 0
"\ud800x" => 0
"\ud800\n" => 0
"\ude00\ud83d" => 0
"\ud83d\u0041" => 0
"\ud83d\ude0 => 0
[1,"\q"] => 3
["a","b] => 5
{"a":"b} => 5
{"\ud800":1} => 1
"\'" => 0
"\0" => 0
[ => 1
[1 => 2
[1, => 3
[1,] => 3
[,1] => 1
[1,,2] => 3
[1 2] => 3
[1;2] => 2
[1:2] => 2
] => 0
[1} => 2
[} => 1
["a" => 4
[[1] => 4
[true false] => 6
{ => 1
} => 0
: => 0
, => 0
{] => 1
{,} => 1
{a:1} => 1
{1:2} => 1
{null:1} => 1
{[]:1} => 1
{"a"} => 4
{"a",1} => 4
{"a":} => 5
{"a":,} => 5
{"a" 1} => 5
{"a":1,} => 7
{"a":1 "b":2} => 7
{"a":1,,"b":2} => 7
{"a":1,2} => 7
{"a":1] => 6
{"a":1 => 6
{"a":1:2} => 6
{"a"::1} => 5
{"a":{"b":1} => 12"#;

// Texts, each with the offset of the first numeral whose value is no number.
const OUT_OF_RANGE: &str = r#"1e20 => 0
-1e20 => 0
100000000000000000000 => 0
1e-19 => 0
0.0000000000000000001 => 0
1.0000000000000000001 => 0
[1,1e20] => 3
{"a":1e99999} => 5
1e-99999 => 0
1e9223372036854775808 => 0
1e-99999999999999999999999999999999999999999 => 0
99999999999999999999.9999999999999999999 => 0
5e-20 => 0
[1e20,} => 1
[1e20 => 1
1e20 x => 0
123456789012345678901 => 0
{"$date":1e20} => 9"#;

// The same, of bytes that a table can hardly show.
const MALFORMED_TOO: [(&[u8], TextFault); 15] = [
    (b"", TextFault::Syntax { at: 0 }),
    (b" ", TextFault::Syntax { at: 1 }),
    (b"\n\n", TextFault::Syntax { at: 2 }),
    (b"\xef\xbb\xbf1", TextFault::Syntax { at: 0 }),
    (b"\xc2\xa01", TextFault::Syntax { at: 0 }),
    (b"\x0b1", TextFault::Syntax { at: 0 }),
    (b"\x0c1", TextFault::Syntax { at: 0 }),
    (b"\x001", TextFault::Syntax { at: 0 }),
    (b"[1\x00]", TextFault::Syntax { at: 2 }),
    (b"\"a\nb\"", TextFault::Syntax { at: 0 }),
    (b"\"a\tb\"", TextFault::Syntax { at: 0 }),
    (b"\"\x00\"", TextFault::Syntax { at: 0 }),
    (b"\"\x1f\"", TextFault::Syntax { at: 0 }),
    (b"[1  ", TextFault::Syntax { at: 4 }),
    (b" 1e20", TextFault::Number { at: 1 }),
];

// Bytes that are not UTF-8, each with the length of its longest front that is.
const NOT_UTF8: [(&[u8], TextFault); 12] = [
    (b"\xff", TextFault::NotUtf8 { at: 0 }),
    (b"\"\xff\"", TextFault::NotUtf8 { at: 1 }),
    (b"[1,\xc3(]", TextFault::NotUtf8 { at: 3 }),
    (b"\xe2\x82", TextFault::NotUtf8 { at: 0 }),
    (b"1\xf0\x9f\x98", TextFault::NotUtf8 { at: 1 }),
    (b"\xc0\x80", TextFault::NotUtf8 { at: 0 }),
    (b"\"\xed\xa0\x80\"", TextFault::NotUtf8 { at: 1 }),
    (b"\xf4\x90\x80\x80", TextFault::NotUtf8 { at: 0 }),
    (b"x\xff", TextFault::NotUtf8 { at: 1 }),
    (b"[1 2]\x80", TextFault::NotUtf8 { at: 5 }),
    (b"\"abc\xe9\"", TextFault::NotUtf8 { at: 4 }),
    (b"[1e20,\xff", TextFault::NotUtf8 { at: 6 }),
];

fn prints(alloc: Global, text: &str, canonical: &str) -> Result<bool, TextFault> {
    let value = read_value(alloc, text.as_bytes())?;
    let printed = canon(alloc, &value)?;
    let mut out = Vec::new(alloc);
    print_value(&value, &mut out)?;
    Ok(
        printed.as_slice() == canonical.as_bytes()
            && out.as_slice() == canonical.as_bytes()
            && text_len(&value) == canonical.len() as u64,
    )
}

// Whether a row's text is printed as its other part, and that as itself.
fn prints_row(alloc: Global, row: &str) -> Result<bool, TextFault> {
    match row.split_once(" => ") {
        Some((text, canonical)) => {
            Ok(prints(alloc, text, canonical)? && prints(alloc, canonical, canonical)?)
        }
        None => Ok(false),
    }
}

#[test]
fn reads_and_prints(rt: HostRuntime) -> Result<(), Fail> {
    for row in READ.split('\n') {
        assert!(rt; prints_row(rt.alloc(), row)?, "{row}");
    }
    for (text, canonical) in READ_TOO {
        assert!(rt; prints(rt.alloc(), text, canonical)?, "{text}");
    }
    Ok(())
}

fn date_in(alloc: Global, text: &str) -> Result<Option<i64>, TextFault> {
    match read_value(alloc, text.as_bytes())? {
        Value::Date(date) => Ok(Some(date)),
        _ => Ok(None),
    }
}

fn dates_row(alloc: Global, row: &str) -> Result<bool, TextFault> {
    match row.split_once(" => ") {
        Some((text, "none")) => Ok(date_in(alloc, text)?.is_none()),
        Some((text, date)) => Ok(date_in(alloc, text)? == date.parse::<i64>().ok()),
        None => Ok(false),
    }
}

#[test]
fn tells_dates_from_objects(rt: HostRuntime) -> Result<(), Fail> {
    for row in DATES.split('\n') {
        assert!(rt; dates_row(rt.alloc(), row)?, "{row}");
    }
    Ok(())
}

fn refuses(alloc: Global, bytes: &[u8], fault: TextFault) -> bool {
    match read_value(alloc, bytes) {
        Err(e) => e == fault,
        Ok(_) => false,
    }
}

// Whether a row's text is refused at the offset that is its other part: as a number, or by its syntax.
fn refuses_row(alloc: Global, row: &str, as_number: bool) -> bool {
    let Some((text, at)) = row.split_once(" => ") else {
        return false;
    };
    let Ok(at) = at.parse::<u64>() else {
        return false;
    };
    let fault = if as_number {
        TextFault::Number { at }
    } else {
        TextFault::Syntax { at }
    };
    refuses(alloc, text.as_bytes(), fault)
}

#[test]
fn finds_the_first_fault(rt: HostRuntime) {
    for row in MALFORMED.split('\n') {
        assert!(rt; refuses_row(rt.alloc(), row, false), "{row}");
    }
    for row in OUT_OF_RANGE.split('\n') {
        assert!(rt; refuses_row(rt.alloc(), row, true), "{row}");
    }
}

#[test]
fn finds_faults_of_bytes(rt: HostRuntime) {
    for (bytes, fault) in MALFORMED_TOO {
        assert!(rt; refuses(rt.alloc(), bytes, fault), "{bytes:?}");
    }
    for (bytes, fault) in NOT_UTF8 {
        assert!(rt; refuses(rt.alloc(), bytes, fault), "{bytes:?}");
    }
}

// So many brackets that open, then the text, then as many that close.
fn nested(alloc: Global, levels: usize, inner: &[u8]) -> Result<Vec<u8>, Fail> {
    let mut text = Vec::new(alloc);
    for _ in 0..levels {
        text.push(b'[')?;
    }
    text.extend_from_slice(inner)?;
    for _ in 0..levels {
        text.push(b']')?;
    }
    Ok(text)
}

#[test]
fn opens_32_levels(rt: HostRuntime) -> Result<(), Fail> {
    let alloc = rt.alloc();
    let deep = TextFault::TooDeep { at: 32 };
    assert!(rt; read_value(alloc, nested(alloc, 32, b"")?.as_slice()).is_ok());
    assert!(rt; read_value(alloc, nested(alloc, 31, b"{\"a\":1},[]")?.as_slice()).is_ok());
    assert!(rt; read_value(alloc, nested(alloc, 31, b"{\"$date\":1}")?.as_slice()).is_ok());
    assert!(rt; refuses(alloc, nested(alloc, 33, b"")?.as_slice(), deep));
    assert!(rt; refuses(alloc, nested(alloc, 32, b"{\"$date\":1}")?.as_slice(), deep));
    assert!(rt;
        refuses(
            alloc,
            nested(alloc, 32, b"1,[")?.as_slice(),
            TextFault::TooDeep { at: 34 }
        )
    );
    assert!(rt;
        refuses(
            alloc,
            nested(alloc, 32, b"1[")?.as_slice(),
            TextFault::Syntax { at: 33 }
        )
    );
    assert!(rt;
        refuses(
            alloc,
            nested(alloc, 32, b" {,\xff")?.as_slice(),
            TextFault::NotUtf8 { at: 35 }
        )
    );
    Ok(())
}

// A numeral with so many digits after its first one.
fn long_numeral(alloc: Global, first: &[u8], digit: u8, digits: usize) -> Result<Vec<u8>, Fail> {
    let mut text = Vec::new(alloc);
    text.extend_from_slice(first)?;
    for _ in 0..digits {
        text.push(digit)?;
    }
    Ok(text)
}

#[test]
fn reads_long_numerals(rt: HostRuntime) -> Result<(), Fail> {
    let alloc = rt.alloc();
    let zeros = long_numeral(alloc, b"-7.5", b'0', 10_000)?;
    let value = read_value(alloc, zeros.as_slice())?;
    assert_eq!(rt; canon(alloc, &value)?.as_slice(), b"-7.5".as_slice());
    let nines = long_numeral(alloc, b"1", b'9', 10_000)?;
    assert!(rt; refuses(alloc, nines.as_slice(), TextFault::Number { at: 0 }));
    let exponent = long_numeral(alloc, b"1e-", b'9', 10_000)?;
    assert!(rt; refuses(alloc, exponent.as_slice(), TextFault::Number { at: 0 }));
    Ok(())
}
