//! What docs/REFUSALS.md says of each refusal. `bench/refusal_pages.py` makes the table of that page.

ghost use Rattle.view_faults.specs.Status.{IsStatus};

use std::io::Write;

// All pages as they are printed, in order of numbers, with an empty line between them: the number and the name, what it
// says, and octets, a type or a module that is refused so.
const PAGES: &str = "\
1 Truncated
  The input ends inside an encoding, or before one that must come. Returned by the readers; of Reader by finish \
    alone.
  for example: BOOLEAN, no octets; BOOLEAN, 01 01.

2 Identifier
  Identifier octets that cannot stand there, or malformed ones; by transcode also octets left over after the \
    value. Returned by the readers.
  for example: BOOLEAN, 02 01 FF; NULL under context-specific 30, 9F 1E 00; BOOLEAN, 01 01 FF 02; VisibleString, \
    3A 09 1A 03 4A 6F 6E 1A 02 65 73.

3 Form
  Constructed where the type is primitive, primitive where it has parts, or the indefinite form on a primitive \
    encoding. Returned by the readers.
  for example: BOOLEAN, 21 03 01 01 FF; OCTET STRING, 04 80.

4 Length
  Malformed length octets, a length above 1,048,576, or a part or segment that passes the end of a definite \
    encoding around it. Returned by the readers.
  for example: OCTET STRING, 04 FF; 04 84 00 10 00 01; 24 03 04 02 41 42.

5 EndOfContents
  The tag universal 0, whose identifier octet is 00 (or 20, constructed), where a value or a segment must begin; \
    00 and another octet than 00 in an encoding of the indefinite form. Returned by the readers.
  for example: BOOLEAN, 00 00; 20 00; OCTET STRING, 24 02 00 00; 24 80 00 01.

6 Contents
  Contents octets that no value of the type within the limits has; a length that none of them have, even where the \
    input ends there, but where it passes the end of a definite encoding (4); a segment of bits after one with unused \
    bits. Returned by the readers.
  for example: INTEGER, 02 02 00 7F; BOOLEAN, 01 00; INTEGER, 02 11 00 7F and fifteen FF; ENUMERATED, 0A 11 00 80 \
    and fifteen 00; BOOLEAN, 01 02 FF; NULL, 05 01; INTEGER, 02 82 04 01; BIT STRING, 23 07 03 02 04 F0 03 01 00.

7 Alphabet
  Contents octets of a character string or a time outside its definition, all its segments joined; a length that \
    none of them have, but where it passes the end of a definite encoding (4). Returned by the readers.
  for example: VisibleString, 1A 01 7F; BMPString, 1E 02 D8 00; UTCTime, 17 0B and 2402291200Z; UTCTime, 17 05.

8 Missing
  A required component is absent. Returned by the readers.
  for example: SEQUENCE of a required INTEGER, 30 00.

9 Repeated
  A component of a SET stands twice. Returned by the readers.
  for example: SET of an INTEGER, 31 06 02 01 07 02 01 07.

10 TooDeep
  More than 64 constructed encodings nested. Returned by the readers.
  for example: OCTET STRING, 24 80 sixty-four times and 24.

11 TooLong
  An encoding of more than 1,048,576 octets. Returned by the readers.
  for example: OCTET STRING, 04 83 0F FF FC.

12 NotCanonical
  Octets that BER allows there and the strict rule does not. Returned by read_cer, read_der, read_canonical, and \
    by transcode from CER and DER.
  for example: BOOLEAN, 01 01 01, from DER.

13 StreamTooLong
  The source gave more than 4,294,967,295 octets. Returned by convert, check, list.

14 OutputTooLong
  The canonical encoding to write has more than 1,048,576 octets. Returned by Canon::put, exactly where the value \
    has no accepted encoding; by transcode and convert after it. To CER a string within the limit may have segments \
    that pass it. To DER an encoding of the indefinite form at the limit may have longer length octets in the definite \
    form: a SEQUENCE OF OCTET STRING 30 80 04 83 0F FF F7, 1,048,567 octets and 00 00 has 1,048,576 octets, and its \
    DER encoding one more. transcode may return 17 in its place, since reading takes memory too.
  for example: OCTET STRING, 04 83 0F EF A9 and 1,044,393 octets, to CER; an OCTET STRING of 1,048,572 octets, to \
    Der.

15 SourceFault
  The source failed in this call. Returned by convert, check, list.
  for example: a file that is a directory.

16 SinkFault
  The sink failed in this call. Returned by convert, list; printed by run for the line of check and the last line \
    feed too.
  for example: any value, written to a full disk.

17 NoMemory
  A growth was refused. Returned by the readers and Canon::put; printed by run for the text too.
  for example: any value, where memory runs out.

21 Token
  An octet or a part of the text is no token, or a comment is not closed. Returned by tokens; by parse for the \
    whole text before its grammar is looked at. The program refuses a file that is not UTF-8 so, at 1:1.
  for example: A, a line feed, a space and #, at 2:2.

22 Syntax
  A token cannot stand there, or more is needed; at the token, or behind the last octet. Returned by parse.
  for example: the type ::=.

23 Reserved
  A reserved word of the profile stands where a name must: the module's name, behind BEGIN, behind an assignment \
    (but END), first in a list and behind its ,. At the word. Returned by parse.
  for example: BOOLEAN ::= NULL.

24 UnknownType
  The name, or a reference that it reaches, is not assigned. Returned by resolve.
  for example: the type U.

25 Cycle
  A type reaches itself. Returned by resolve.
  for example: the type SET OF T of T.

26 RepeatedName
  Two assignments of the module, or two names in one list that the type reaches, are equal; at the second of two \
    equal assignments. Returned by resolve; of assignments whatever name is asked, before all else.
  for example: the type CHOICE { a NULL, a NULL }.

27 RepeatedNumber
  Two items of an ENUMERATED, or two named bits of a BIT STRING, have one number. Returned by resolve and \
    WellTyped::new.
  for example: the type ENUMERATED { a(1), b(1) }; items a 1 and b 1.

28 TagsNotDistinct
  Tags that must differ are equal, or a tag is universal 0, which is kept for the end of contents. Returned by \
    resolve and WellTyped::new.
  for example: the type SET { a NULL, b NULL }; BOOLEAN under universal 0.

29 ImplicitChoice
  IMPLICIT is written around an untagged CHOICE. Returned by resolve.
  for example: the type [0] IMPLICIT CHOICE { a NULL }.

30 BadDefault
  A DEFAULT that its type does not take: no value of it, an INTEGER past 128 bits, or on a type that takes none. \
    Returned by resolve and WellTyped::new.
  for example: the type SEQUENCE { a BOOLEAN DEFAULT 3 }; a default on a NULL.

31 TooLarge
  A limit on texts, modules or types is passed: the text's length or a number above 2^127 (tokens); what parse \
    counts, at the place that PROFILE.md names; of a type more than 4,096 nodes or 60 levels, a tag number above \
    268,435,455, a list of more than 256, a CHOICE, ENUMERATED or list of named bits that is empty, a named bit's \
    number above 65,535 (resolve, WellTyped::new). The program refuses a file of more than 262,144 octets so, UTF-8 or \
    not, at 1:1.
  for example: the type [268435456] NULL, at the number; NULL under context-specific 268,435,456.

32 NotInProfile
  The first token that cannot stand is a reserved word or a symbol outside the profile, ( behind a type, or { \
    behind INTEGER. At the token. Returned by parse.
  for example: the type INTEGER (5), at the (.

33 NoMemory
  A growth was refused; at 1:1. Returned by tokens, parse, resolve; by the program, reading the file.
  for example: any text, where memory runs out.";

/// Prints what docs/REFUSALS.md says of a number, and returns the exit status.
pub fn show_pages<W: Write, E: Write>(number: u64, out: &mut W, err: &mut E) -> u8
    ensures { IsStatus result }
{
    let Some(page) = page_of(number) else {
        let _ = writeln!(
            err,
            "asn1x-view: no refusal has the number {number}: they are 1 to 17 and 21 to 33"
        );
        return 64;
    };
    let _ = writeln!(out, "{page}");
    0
}

// The page of a number, if there is one.
fn page_of(number: u64) -> Option<&'static str> {
    for page in PAGES.split("\n\n") {
        if is_of(page, number) {
            return Some(page);
        }
    }
    None
}

// Whether the page begins with the number.
fn is_of(page: &str, number: u64) -> bool {
    match page.split_once(' ') {
        Some((first, _)) => matches!(first.parse::<u64>(), Ok(found) if found == number),
        None => false,
    }
}
