//! Runs of the program, from its words to what it prints and its status.
//!
//! A line of a table that ends with a colon is a module, and the rows below it are runs over its types. A row has the
//! words behind the program's name, the input, the standard output, the standard error and the status. The input is a
//! hexadecimal text. In printed lines a semicolon stands for a line feed, and each run of spaces for one.

use crate::fake::Fake;
use convert::unhex;
use serde_json::Value;
use std::alloc::Global;
use std::cell::RefCell;
use std::test::Fail;
use test_tables::{is_row, rows_of, three};
use view::{CommandLine, Line, run};

const RUNS: &str = "
// a line for each identifier: where the standard puts heads, and what the text of each value is
M DEFINITIONS IMPLICIT TAGS ::= BEGIN T ::= SEQUENCE { a INTEGER, b [0] BOOLEAN DEFAULT FALSE, c CHOICE { x [1] UTF8String, y [APPLICATION 2] SEQUENCE OF NULL } OPTIONAL, d [3] EXPLICIT ENUMERATED { p(0), q(1) } OPTIONAL } S ::= SET { a INTEGER, b [PRIVATE 0] OBJECT IDENTIFIER } O ::= SET OF BIT STRING N ::= BIT STRING { u(0) } C ::= SET { a CHOICE { x BOOLEAN, y [5] NULL }, b INTEGER } D ::= SEQUENCE { s OCTET STRING, n INTEGER } I ::= SET OF INTEGER Q ::= SET OF SET OF INTEGER END:
octets,m,T,in | 3003 020107 | 0000: 0 2+3 [UNIVERSAL 16] T ::= SEQUENCE;0002: 1 2+1 [UNIVERSAL 2] .a INTEGER 7; || 0
octets,m,T,in | 300c 020180 8001ff 620405000500 | 0000: 0 2+12 [UNIVERSAL 16] T ::= SEQUENCE;0002: 1 2+1 [UNIVERSAL 2] .a INTEGER -128;0005: 1 2+1 [0] .b BOOLEAN TRUE;0008: 1 2+4 [APPLICATION 2] .c.y SEQUENCE OF;0010: 2 2+0 [UNIVERSAL 5] .c.y[0] NULL NULL;0012: 2 2+0 [UNIVERSAL 5] .c.y[1] NULL NULL; || 0
octets,m,T,in | 300d 020107 8103 4a6f6e a303 0a0101 | 0000: 0 2+13 [UNIVERSAL 16] T ::= SEQUENCE;0002: 1 2+1 [UNIVERSAL 2] .a INTEGER 7;0005: 1 2+3 [1] .c.x UTF8String \"Jon\";0010: 1 2+3 [3] .d ENUMERATED;0012: 2 2+1 [UNIVERSAL 10] .d ENUMERATED q; || 0
octets,m,T,in | 3003 020107 3003 020108 | 0000: 0 2+3 [UNIVERSAL 16] T ::= SEQUENCE;0002: 1 2+1 [UNIVERSAL 2] .a INTEGER 7;0005: 0 2+3 [UNIVERSAL 16] T ::= SEQUENCE;0007: 1 2+1 [UNIVERSAL 2] .a INTEGER 8; || 0
octets,m,T,in,--value,2 | 3003 020107 3003 020108 | 0005: 0 2+3 [UNIVERSAL 16] T ::= SEQUENCE;0007: 1 2+1 [UNIVERSAL 2] .a INTEGER 8; || 0
octets,m,T,in,--value,3 | 3003 020107 3003 020108 | | in: has fewer values; | 1
octets,m,N,in,none,other | 030206c0 | in:;0000: 0 2+2 [UNIVERSAL 3] N ::= BIT STRING '11'B;other:;0000: 0 2+2 [UNIVERSAL 3] N ::= BIT STRING '11'B; | none: cannot be read; | 3
octets,m,S,in | 3107 020107 c0022a03 | 0000: 0 2+7 [UNIVERSAL 17] S ::= SET;0002: 1 2+1 [UNIVERSAL 2] .a INTEGER 7;0005: 1 2+2 [PRIVATE 0] .b OBJECT IDENTIFIER 1.2.3; || 0
octets,m,N,in | 030206c0 | 0000: 0 2+2 [UNIVERSAL 3] N ::= BIT STRING '11'B; || 0
octets,m,N,- | 030206c0 | 0000: 0 2+2 [UNIVERSAL 3] N ::= BIT STRING '11'B; || 0
octets,m,C,in | 3105 020107 8500 | 0000: 0 2+5 [UNIVERSAL 17] C ::= SET;0002: 1 2+1 [UNIVERSAL 2] .b INTEGER 7;0005: 1 2+0 [5] .a.y NULL NULL; || 0
octets,@builtin,OCTET STRING,in | 0421 000102030405060708090a0b0c0d0e0f101112131415161718191a1b1c1d1e1f20 | 0000: 0 2+33 [UNIVERSAL 4] OCTET STRING ::= OCTET STRING '000102030405060708090A0B0C0D0E0F101112131415161718191A1B1C1D1E1F'H (more octets: 1); || 0
octets,@builtin,OCTET STRING,in,--wide | 0421 000102030405060708090a0b0c0d0e0f101112131415161718191a1b1c1d1e1f20 | 0000: 0 2+33 [UNIVERSAL 4] OCTET STRING ::= OCTET STRING '000102030405060708090A0B0C0D0E0F101112131415161718191A1B1C1D1E1F20'H; || 0
// what is not canonical, by DER
octets,m,T,in | 3080 028101 07 80012a 0000 | 0000: 0 2+indef [UNIVERSAL 16] T ::= SEQUENCE (not DER: the indefinite form);0002: 1 3+1 [UNIVERSAL 2] .a INTEGER 7 (not DER: more length octets than needed);0006: 1 2+1 [0] .b BOOLEAN TRUE (not DER: TRUE is not FF);0009: 1 2+0 [UNIVERSAL 0] end of contents; || 0
octets,m,T,in | 3006 020107 800100 | 0000: 0 2+6 [UNIVERSAL 16] T ::= SEQUENCE;0002: 1 2+1 [UNIVERSAL 2] .a INTEGER 7;0005: 1 2+1 [0] .b BOOLEAN FALSE (not DER: the default is spelt out); || 0
octets,m,S,in | 3107 c0022a03 020107 | 0000: 0 2+7 [UNIVERSAL 17] S ::= SET;0002: 1 2+2 [PRIVATE 0] .b OBJECT IDENTIFIER 1.2.3;0006: 1 2+1 [UNIVERSAL 2] .a INTEGER 7 (not DER: a component out of the order of tags); || 0
octets,m,O,in | 3108 030204f0 030204e1 | 0000: 0 2+8 [UNIVERSAL 17] O ::= SET OF;0002: 1 2+2 [UNIVERSAL 3] [0] BIT STRING '1111'B;0006: 1 2+2 [UNIVERSAL 3] [1] BIT STRING '1110'B (not DER: unused bits are not 0); || 0
// items of a SET OF are ordered by their canonical encodings: of others nothing is said
octets,m,I,in | 3106 020106 020105 | 0000: 0 2+6 [UNIVERSAL 17] I ::= SET OF;0002: 1 2+1 [UNIVERSAL 2] [0] INTEGER 6;0005: 1 2+1 [UNIVERSAL 2] [1] INTEGER 5 (not DER: an item that is less than the one before it); || 0
octets,m,I,in | 3106 020105 020106 | 0000: 0 2+6 [UNIVERSAL 17] I ::= SET OF;0002: 1 2+1 [UNIVERSAL 2] [0] INTEGER 5;0005: 1 2+1 [UNIVERSAL 2] [1] INTEGER 6; || 0
octets,m,I,in | 3107 02810105 020106 | 0000: 0 2+7 [UNIVERSAL 17] I ::= SET OF;0002: 1 3+1 [UNIVERSAL 2] [0] INTEGER 5 (not DER: more length octets than needed);0006: 1 2+1 [UNIVERSAL 2] [1] INTEGER 6; || 0
octets,m,I,in | 310a 02810105 020106 020104 | 0000: 0 2+10 [UNIVERSAL 17] I ::= SET OF;0002: 1 3+1 [UNIVERSAL 2] [0] INTEGER 5 (not DER: more length octets than needed);0006: 1 2+1 [UNIVERSAL 2] [1] INTEGER 6;0009: 1 2+1 [UNIVERSAL 2] [2] INTEGER 4 (not DER: an item that is less than the one before it); || 0
octets,m,I,in | 3180 020106 020105 0000 | 0000: 0 2+indef [UNIVERSAL 17] I ::= SET OF (not DER: the indefinite form);0002: 1 2+1 [UNIVERSAL 2] [0] INTEGER 6;0005: 1 2+1 [UNIVERSAL 2] [1] INTEGER 5 (not DER: an item that is less than the one before it);0008: 1 2+0 [UNIVERSAL 0] end of contents; || 0
octets,m,I,in,--from,der | 3106 020106 020105 | 0000: 0 2+6 [UNIVERSAL 17] I ::= SET OF;0002: 1 2+1 [UNIVERSAL 2] [0] INTEGER 6;0005: 1 2+1 [UNIVERSAL 2] [1] INTEGER 5 (not DER: an item that is less than the one before it); | in: octet 5: [1]: refused 12 NotCanonical: not DER: an item that is less than the one before it; | 1
octets,m,Q,in | 310a 3103 020106 3103 020105 | 0000: 0 2+10 [UNIVERSAL 17] Q ::= SET OF;0002: 1 2+3 [UNIVERSAL 17] [0] SET OF;0004: 2 2+1 [UNIVERSAL 2] [0][0] INTEGER 6;0007: 1 2+3 [UNIVERSAL 17] [1] SET OF (not DER: an item that is less than the one before it);0009: 2 2+1 [UNIVERSAL 2] [1][0] INTEGER 5; || 0
octets,m,Q,in | 310d 3103 020107 3106 020106 020105 | 0000: 0 2+13 [UNIVERSAL 17] Q ::= SET OF;0002: 1 2+3 [UNIVERSAL 17] [0] SET OF;0004: 2 2+1 [UNIVERSAL 2] [0][0] INTEGER 7;0007: 1 2+6 [UNIVERSAL 17] [1] SET OF;0009: 2 2+1 [UNIVERSAL 2] [1][0] INTEGER 6;0012: 2 2+1 [UNIVERSAL 2] [1][1] INTEGER 5 (not DER: an item that is less than the one before it); || 0
octets,m,Q,in | 310d 3106 020106 020105 3103 020107 | 0000: 0 2+13 [UNIVERSAL 17] Q ::= SET OF;0002: 1 2+6 [UNIVERSAL 17] [0] SET OF;0004: 2 2+1 [UNIVERSAL 2] [0][0] INTEGER 6;0007: 2 2+1 [UNIVERSAL 2] [0][1] INTEGER 5 (not DER: an item that is less than the one before it);0010: 1 2+3 [UNIVERSAL 17] [1] SET OF;0012: 2 2+1 [UNIVERSAL 2] [1][0] INTEGER 7; || 0
octets,m,N,in | 03020480 | 0000: 0 2+2 [UNIVERSAL 3] N ::= BIT STRING '1'B (not DER: bits 0 at the end of named bits); || 0
octets,m,N,in | 2308 030200a0 03020400 | 0000: 0 2+8 [UNIVERSAL 3] N ::= BIT STRING (not DER: a string in segments);0002: 1 2+2 [UNIVERSAL 3] N ::= BIT STRING segment '10100000'B;0006: 1 2+2 [UNIVERSAL 3] N ::= BIT STRING segment '0000'B (not DER: bits 0 at the end of named bits); || 0
// which segment is the last is known where all strings around it end behind it
octets,m,N,in | 2306 2304 03020000 | 0000: 0 2+6 [UNIVERSAL 3] N ::= BIT STRING (not DER: a string in segments);0002: 1 2+4 [UNIVERSAL 3] N ::= BIT STRING (not DER: a string in segments);0004: 2 2+2 [UNIVERSAL 3] N ::= BIT STRING segment '00000000'B (not DER: bits 0 at the end of named bits); || 0
octets,m,N,in | 2380 2380 03020000 0000 0000 | 0000: 0 2+indef [UNIVERSAL 3] N ::= BIT STRING (not DER: the indefinite form) (not DER: a string in segments);0002: 1 2+indef [UNIVERSAL 3] N ::= BIT STRING (not DER: the indefinite form) (not DER: a string in segments);0004: 2 2+2 [UNIVERSAL 3] N ::= BIT STRING segment '00000000'B (not DER: bits 0 at the end of named bits);0008: 2 2+0 [UNIVERSAL 0] end of contents;0010: 1 2+0 [UNIVERSAL 0] end of contents; || 0
octets,m,N,in | 2380 2304 03020000 0000 | 0000: 0 2+indef [UNIVERSAL 3] N ::= BIT STRING (not DER: the indefinite form) (not DER: a string in segments);0002: 1 2+4 [UNIVERSAL 3] N ::= BIT STRING (not DER: a string in segments);0004: 2 2+2 [UNIVERSAL 3] N ::= BIT STRING segment '00000000'B (not DER: bits 0 at the end of named bits);0008: 1 2+0 [UNIVERSAL 0] end of contents; || 0
octets,m,N,in | 2380 2380 03020000 0000 03020780 0000 | 0000: 0 2+indef [UNIVERSAL 3] N ::= BIT STRING (not DER: the indefinite form) (not DER: a string in segments);0002: 1 2+indef [UNIVERSAL 3] N ::= BIT STRING (not DER: the indefinite form) (not DER: a string in segments);0004: 2 2+2 [UNIVERSAL 3] N ::= BIT STRING segment '00000000'B;0008: 2 2+0 [UNIVERSAL 0] end of contents;0010: 1 2+2 [UNIVERSAL 3] N ::= BIT STRING segment '1'B;0014: 1 2+0 [UNIVERSAL 0] end of contents; || 0
octets,m,N,in | 230a 2304 03020000 03020780 | 0000: 0 2+10 [UNIVERSAL 3] N ::= BIT STRING (not DER: a string in segments);0002: 1 2+4 [UNIVERSAL 3] N ::= BIT STRING (not DER: a string in segments);0004: 2 2+2 [UNIVERSAL 3] N ::= BIT STRING segment '00000000'B;0008: 1 2+2 [UNIVERSAL 3] N ::= BIT STRING segment '1'B; || 0
octets,m,D,in | 300b 2406 040141 040142 020107 | 0000: 0 2+11 [UNIVERSAL 16] D ::= SEQUENCE;0002: 1 2+6 [UNIVERSAL 4] .s OCTET STRING (not DER: a string in segments);0004: 2 2+1 [UNIVERSAL 4] .s OCTET STRING segment '41'H;0007: 2 2+1 [UNIVERSAL 4] .s OCTET STRING segment '42'H;0010: 1 2+1 [UNIVERSAL 2] .n INTEGER 7; || 0
octets,m,D,in,--only-refused | 300b 2406 040141 040142 020207 || in: octet 11: .n: refused 4 Length: it goes on past the end of what holds it; | 1
// what is not canonical, by CER
octets,m,T,in,--from,cer | 3080 020107 0000 3003 020107 | 0000: 0 2+indef [UNIVERSAL 16] T ::= SEQUENCE;0002: 1 2+1 [UNIVERSAL 2] .a INTEGER 7;0005: 1 2+0 [UNIVERSAL 0] end of contents;0007: 0 2+3 [UNIVERSAL 16] T ::= SEQUENCE (not CER: the definite form of a constructed encoding);0009: 1 2+1 [UNIVERSAL 2] .a INTEGER 7; | in: octet 7: T: refused 12 NotCanonical: not CER: the definite form of a constructed encoding; | 1
// by CER a CHOICE without a tag stands where its least tag does, UNIVERSAL 1, and by DER where its own one does (9.3, 10.3)
octets,m,C,in,--from,cer | 3180 8500 020107 0000 | 0000: 0 2+indef [UNIVERSAL 17] C ::= SET;0002: 1 2+0 [5] .a.y NULL NULL;0004: 1 2+1 [UNIVERSAL 2] .b INTEGER 7;0007: 1 2+0 [UNIVERSAL 0] end of contents; || 0
octets,m,C,in,--from,cer | 3180 020107 8500 0000 | 0000: 0 2+indef [UNIVERSAL 17] C ::= SET;0002: 1 2+1 [UNIVERSAL 2] .b INTEGER 7;0005: 1 2+0 [5] .a.y NULL NULL (not CER: a component out of the order of tags);0007: 1 2+0 [UNIVERSAL 0] end of contents; | in: octet 5: .a.y: refused 12 NotCanonical: not CER: a component out of the order of tags; | 1
octets,m,C,in,--from,der | 3105 8500 020107 | 0000: 0 2+5 [UNIVERSAL 17] C ::= SET;0002: 1 2+0 [5] .a.y NULL NULL;0004: 1 2+1 [UNIVERSAL 2] .b INTEGER 7 (not DER: a component out of the order of tags); | in: octet 4: .b: refused 12 NotCanonical: not DER: a component out of the order of tags; | 1
octets,@builtin,OCTET STRING,in,--from,cer,--only-refused | 2480 040141 0000 || in: octet 2: OCTET STRING: refused 12 NotCanonical: not CER: a string in segments; | 1
// octets that are refused: the number of each, where the fault stands by the clauses of X.690, and the words
M DEFINITIONS IMPLICIT TAGS ::= BEGIN T ::= SEQUENCE { a INTEGER, b [0] BOOLEAN DEFAULT FALSE, c CHOICE { x [1] UTF8String, y [APPLICATION 2] SEQUENCE OF NULL } OPTIONAL, d [3] EXPLICIT ENUMERATED { p(0), q(1) } OPTIONAL } S ::= SET { a INTEGER, b [PRIVATE 0] OBJECT IDENTIFIER } G ::= GeneralizedTime U ::= UTCTime V ::= NumericString P ::= BMPString N ::= BIT STRING R ::= RELATIVE-OID END:
octets,m,T,in,--only-refused | 3003 0201 || in: octet 4: .a: refused 1 Truncated: the input ends inside the contents octets, 1 missing; | 1
octets,m,T,in,--only-refused | 3003 || in: octet 2: T: refused 1 Truncated: the input ends where an identifier must stand; | 1
octets,m,T,in,--only-refused | 9f81 || in: octet 0: T: refused 1 Truncated: the input ends inside the identifier octets; | 1
octets,m,T,in,--only-refused | ff || in: octet 0: T: refused 1 Truncated: the input ends inside the identifier octets; | 1
octets,m,T,in,--only-refused | 1f || in: octet 0: T: refused 1 Truncated: the input ends inside the identifier octets; | 1
octets,m,T,in,--only-refused | 3080 020107 bf || in: octet 5: T: refused 1 Truncated: the input ends inside the identifier octets; | 1
octets,m,T,in,--only-refused | 3080 020107 || in: octet 5: T: refused 1 Truncated: the input ends before the end-of-contents octets; | 1
octets,m,T,in,--only-refused | 30 || in: octet 1: T: refused 1 Truncated: the input ends inside the length octets; | 1
octets,m,T,in,--only-refused | 3080 020107 00 || in: octet 6: T: refused 1 Truncated: the input ends before the end-of-contents octets; | 1
octets,m,T,in,--only-refused | 3003 020107 3103 || in: octet 5: T: refused 2 Identifier: no part that begins with [UNIVERSAL 17] can stand here; | 1
octets,m,T,in,--only-refused | 3005 020107 0500 || in: octet 5: T: refused 2 Identifier: no part that begins with [UNIVERSAL 5] can stand here; | 1
octets,m,T,in,--only-refused | 3005 1f8001 0000 || in: octet 2: T: refused 2 Identifier: malformed identifier octets, or a tag number above 268,435,455 (the limit is asn1x's own); | 1
octets,m,T,in,--only-refused | 3005 2203 020107 || in: octet 2: .a: refused 3 Form: constructed, and INTEGER is primitive; | 1
octets,m,T,in,--only-refused | 3005 020107 4200 || in: octet 5: .c.y: refused 3 Form: primitive, and SEQUENCE OF is constructed; | 1
octets,m,T,in,--only-refused | 3002 0280 || in: octet 3: .a: refused 3 Form: a primitive encoding of the indefinite form; | 1
octets,m,T,in,--only-refused | 3003 020207 || in: octet 3: .a: refused 4 Length: it goes on past the end of what holds it; | 1
octets,m,T,in,--only-refused | 30ff || in: octet 1: T: refused 4 Length: malformed length octets, or more than 1,048,576 (the limit is asn1x's own); | 1
octets,m,T,in,--only-refused | 3007 020107 a300 0000 || in: octet 7: .d: refused 4 Length: nothing stands in an explicit tag; | 1
octets,m,T,in,--only-refused | 3005 020107 0000 || in: octet 5: T: refused 5 EndOfContents: universal 0, the tag of end-of-contents octets, stands where a part must begin; | 1
octets,m,T,in,--only-refused | 3080 020107 0001 || in: octet 6: T: refused 5 EndOfContents: 00 begins end-of-contents octets, and these are not 00 00, or not where they may end; | 1
octets,m,T,in,--only-refused | 3004 02020001 || in: octet 4: .a: refused 6 Contents: the first nine bits of an INTEGER are equal; | 1
octets,m,T,in,--only-refused | 3002 0200 || in: octet 3: .a: refused 6 Contents: INTEGER has 1 to 1,024 contents octets (the limit is asn1x's own), and these are 0; | 1
octets,m,T,in,--only-refused | 3008 020107 a303 0a0102 || in: octet 9: .d: refused 6 Contents: no item has the number 2; | 1
octets,m,S,in,--only-refused | 3107 020107 c0028003 || in: octet 7: .b: refused 6 Contents: a subidentifier begins with 80; | 1
octets,m,R,in,--only-refused | 0d0181 || in: octet 2: R: refused 6 Contents: the last subidentifier does not end; | 1
octets,m,N,in,--only-refused | 0302 0800 || in: octet 2: N: refused 6 Contents: the first octet says how many bits are unused, at most 7; | 1
octets,m,N,in,--only-refused | 2308 030204f0 03020000 || in: octet 6: N: refused 6 Contents: the segment before this one has unused bits; | 1
octets,m,G,in,--only-refused | 180f 32303236393930313039333031355a || in: octet 6: G: refused 7 Alphabet: the month is 99; | 1
octets,m,G,in,--only-refused | 180f 32303236303233303039333031355a || in: octet 8: G: refused 7 Alphabet: the month does not have this day; | 1
octets,m,G,in,--only-refused | 1805 3230323630 || in: octet 1: G: refused 7 Alphabet: GeneralizedTime has 15 contents octets, or 17 to 28, and these are 5; | 1
octets,m,U,in,--only-refused | 170d 32363033303132343330313558 5a || in: octet 8: U: refused 7 Alphabet: the hour is 24; | 1
octets,m,V,in,--only-refused | 1203 352a35 || in: octet 3: V: refused 7 Alphabet: NumericString has no octet 2A; | 1
octets,m,P,in,--only-refused | 1e04 0041 d800 || in: octet 4: P: refused 7 Alphabet: BMPString has no octet D8; | 1
octets,m,S,in,--only-refused | 3103 020107 || in: octet 5: S: refused 8 Missing: the component b is missing; | 1
octets,m,T,in,--only-refused | 3003 800100 || in: octet 2: T: refused 8 Missing: the component a is missing; | 1
octets,m,S,in,--only-refused | 3106 020107 020107 || in: octet 5: S: refused 9 Repeated: the component has come already; | 1
octets,@builtin,OCTET STRING,in,--only-refused | 0483100000 || in: octet 1: OCTET STRING: refused 11 TooLong: more than 1,048,576 octets (the limit is asn1x's own); | 1
octets,m,T,in,--only-refused,--from,der | 3080 020107 0000 || in: octet 0: T: refused 12 NotCanonical: not DER: the indefinite form; | 1
octets,m,T,in,--only-refused,--from,der | 3005 020107 0500 || in: octet 5: T: refused 2 Identifier: no part that begins with [UNIVERSAL 5] can stand here; | 1
octets,m,T,in,other,--only-refused | 3003 020107 05 || in: octet 5: T: refused 2 Identifier: no part that begins with [UNIVERSAL 5] can stand here;other: octet 5: T: refused 2 Identifier: no part that begins with [UNIVERSAL 5] can stand here; | 1
octets,m,T,none,in,--only-refused | 05 || none: cannot be read;in: octet 0: T: refused 2 Identifier: no part that begins with [UNIVERSAL 5] can stand here; | 3
octets,m,X,in | || m:1:1: X: refused 24 UnknownType: the name, or one that it reaches, is not assigned; | 2
octets,none,X,in | || none: cannot be read; | 3
octets,@builtin,X,in | || @builtin: X is none of BOOLEAN, INTEGER, NULL and OCTET STRING; | 64
octets,@builtin,X\tY,in | || @builtin: X\\u{9}Y is none of BOOLEAN, INTEGER, NULL and OCTET STRING; | 64
octets,m,X\tY,in | || m:1:1: X\\u{9}Y: refused 24 UnknownType: the name, or one that it reaches, is not assigned; | 2
// texts in place of encodings, at the front of the input and in its first piece: PEM, and 16 octets of hexadecimal text, not 15, or none
octets,m,T,whole,--only-refused | 2d2d2d2d2d424547494e20 || whole: octet 0: T: refused 2 Identifier: no part that begins with [UNIVERSAL 13] can stand here;whole: looks like PEM: `openssl asn1parse -in FILE -noout -out FILE.der` unwraps it; | 1
octets,m,T,whole,--only-refused | 2d2d2d2d2d424547494e || whole: octet 0: T: refused 2 Identifier: no part that begins with [UNIVERSAL 13] can stand here; | 1
octets,m,T,whole,--only-refused | 3330204630336130620a3032 09303130 || whole: octet 0: T: refused 2 Identifier: no part that begins with [UNIVERSAL 19] can stand here;whole: looks like hexadecimal text, which --hex reads; | 1
octets,m,T,whole,--only-refused | 3330204630336130620a3032 093031 || whole: octet 0: T: refused 2 Identifier: no part that begins with [UNIVERSAL 19] can stand here; | 1
octets,m,T,whole,--only-refused | 3330204630336130620a3032 09303167 || whole: octet 0: T: refused 2 Identifier: no part that begins with [UNIVERSAL 19] can stand here; | 1
octets,m,T,whole,--only-refused | 3003 020107 3330204630336130620a3032 09303130 || whole: octet 5: T: refused 2 Identifier: no part that begins with [UNIVERSAL 19] can stand here; | 1
octets,m,T,in,--only-refused | 2d2d2d2d2d424547494e20 || in: octet 0: T: refused 2 Identifier: no part that begins with [UNIVERSAL 13] can stand here; | 1
// the other commands
M DEFINITIONS IMPLICIT TAGS ::= BEGIN T ::= SEQUENCE { a INTEGER, b [0] BOOLEAN DEFAULT FALSE, c CHOICE { x [1] UTF8String, y [APPLICATION 2] SEQUENCE OF NULL } OPTIONAL, d [3] EXPLICIT ENUMERATED { p(0), q(1) } OPTIONAL } N ::= BIT STRING { u(0) } P ::= BMPString D ::= SEQUENCE { s OCTET STRING, n INTEGER } END:
json,m,T,in | 3003 020107 300d 020107 8103 4a226e a303 0a0101 | {\"a\":7};{\"a\":7,\"c\":{\"x\":\"J\\\"n\"},\"d\":\"q\"}; || 0
json,m,T,in | 300c 020180 8001ff 620405000500 | {\"a\":-128,\"b\":true,\"c\":{\"y\":[null,null]}}; || 0
json,m,T,in,--indent | 3003 020107 | {; \"a\": 7;}; || 0
json,m,N,in | 030206c0 | {\"value\":\"C0\",\"length\":2}; || 0
json,m,P,in | 1e04 00e9 20ac | \"é€\"; || 0
json,m,D,in | 300b 2406 040141 040142 020107 3080 2480 2480 040141 0000 040142 0000 0201ff 0000 | {\"s\":\"4142\",\"n\":7};{\"s\":\"4142\",\"n\":-1}; || 0
json,@builtin,INTEGER,in | 0207 20000000000001 | 9007199254740993; || 0
json,@builtin,OCTET STRING,in | 0402 0aff 05 | \"0AFF\"; | in: octet 4: OCTET STRING: refused 2 Identifier: no part that begins with [UNIVERSAL 5] can stand here; | 1
types,m | | 1: T ::= SEQUENCE, components: 4; 1: N ::= BIT STRING, named bits: 1; 1: P ::= BMPString; 1: D ::= SEQUENCE, components: 2; || 0
types,m,T | | T [UNIVERSAL 16] SEQUENCE; a [UNIVERSAL 2] INTEGER; b [0] BOOLEAN DEFAULT FALSE; c CHOICE OPTIONAL; x [1] UTF8String; y [APPLICATION 2] SEQUENCE OF; [UNIVERSAL 5] NULL; d [3] EXPLICIT OPTIONAL; [UNIVERSAL 10] ENUMERATED; p(0); q(1);nodes: 9, levels: 2; || 0
types,m,Q | || m:1:1: Q: refused 24 UnknownType: the name, or one that it reaches, is not assigned; | 2
module,m | | || 0
M DEFINITIONS ::= BEGIN A ::= INTEGER (5) B ::= SEQUENCE { a ANY } C ::= Dd END:
module,m | | m:1:39: refused 32 NotInProfile: (: OPTIONAL, DEFAULT, a comma or } behind a type, the next assignment, or ::= behind a name could stand here; constraints are not in the profile: leave it out, as asn1x-trim does;m:1:62: refused 32 NotInProfile: ANY: a type, or behind an item a comma, } or a number in ( ) could stand here; ANY is not in the profile: write the type that stands there;m:1:74: refused 24 UnknownType: Dd: no type has this name in the module; || 2
M DEFINITIONS ::= BEGIN A ::= Dd B ::= INTEGER (5) END:
module,m | | m:1:31: refused 24 UnknownType: Dd: no type has this name in the module;m:1:48: refused 32 NotInProfile: (: OPTIONAL, DEFAULT, a comma or } behind a type, the next assignment, or ::= behind a name could stand here; constraints are not in the profile: leave it out, as asn1x-trim does; || 2
M DEFINITIONS ::= BEGIN U ::= CHOICE { a NULL, b NULL } T ::= SEQUENCE { x Dd } V ::= CHOICE { c BOOLEAN, d BOOLEAN } END:
module,m | | m:1:48: refused 28 TagsNotDistinct: b: in U: tags that must differ are equal;m:1:76: refused 24 UnknownType: Dd: no type has this name in the module;m:1:107: refused 28 TagsNotDistinct: d: in V: tags that must differ are equal; || 2
M DEFINITIONS ::= BEGIN A ::= NULL A ::= SET OF A BB ::= SET OF BB END:
module,m | | m:1:36: refused 26 RepeatedName: A: the name is assigned already; || 2
types,m,BB | || m:1:36: A: refused 26 RepeatedName: two names are equal; | 2
octets,m,BB,in | 0500 || m:1:36: A: refused 26 RepeatedName: two names are equal; | 2
M DEFINITIONS ::= BEGIN Aab ::= NULL BBBB ::= SET OF BBBB END:
module,m | | m:1:54: refused 25 Cycle: BBBB: in BBBB: the type reaches itself; || 2
types,m,Aaa | || m:1:1: Aaa: refused 24 UnknownType: the name, or one that it reaches, is not assigned;Aaa is near Aab; | 2
octets,m,Aaa,in | 0500 || m:1:1: Aaa: refused 24 UnknownType: the name, or one that it reaches, is not assigned;Aaa is near Aab; | 2
M DEFINITIONS ::= BEGIN T ::= CHOICE { a NULL, b NULL, a BOOLEAN } U ::= SEQUENCE { t T } END:
module,m | | m:1:56: refused 26 RepeatedName: a: in T: two names are equal; || 2
types,m,T | || m:1:25: T: refused 26 RepeatedName: two names are equal; | 2
M DEFINITIONS ::= BEGIN T ::= SEQUENCE { e ENUMERATED { p(1), q(1) }, f BIT STRING { u(3), v(4), w(3) } } END:
module,m | | m:1:65: refused 27 RepeatedNumber: 1: in T: two items or two named bits have one number; || 2
M DEFINITIONS ::= BEGIN T ::= SET { a [1] NULL, b SEQUENCE OF SET { c [APPLICATION 2] NULL, d [APPLICATION 2] BOOLEAN } } U ::= CHOICE { a NULL, b NULL } END:
module,m | | m:1:95: refused 28 TagsNotDistinct: [APPLICATION 2]: in T: tags that must differ are equal;m:1:146: refused 28 TagsNotDistinct: b: in U: tags that must differ are equal; || 2
M DEFINITIONS ::= BEGIN C ::= CHOICE { a NULL } T ::= SEQUENCE { x BOOLEAN, y [0] IMPLICIT C OPTIONAL } END:
module,m | | m:1:79: refused 29 ImplicitChoice: [0]: in T: IMPLICIT is written around an untagged CHOICE; || 2
M DEFINITIONS ::= BEGIN T ::= SEQUENCE { a NULL, b SEQUENCE { c BOOLEAN OPTIONAL, d INTEGER DEFAULT TRUE } } END:
module,m | | m:1:101: refused 30 BadDefault: TRUE: in T: the type does not take this DEFAULT; || 2
M DEFINITIONS ::= BEGIN A ::= SEQUENCE { b B OPTIONAL } B ::= SET OF A C ::= SEQUENCE OF B END:
module,m | | m:1:44: refused 25 Cycle: B: in A: the type reaches itself;m:1:70: refused 25 Cycle: A: in B: the type reaches itself; || 2
M DEFINITIONS ::= BEGIN A ::= # END:
module,m | | m:1:31: refused 21 Token: what stands here is no token, or a comment is not closed, and what stands behind it is not looked at; || 2
M DEFINITIONS ::= BEGIN T ::= [268435456] NULL END:
module,m | | m:1:32: refused 31 TooLarge: 268435456: a limit of asn1x is passed; || 2
M DEFINITIONS BEGIN END:
module,m | | m:1:15: refused 22 Syntax: BEGIN: EXPLICIT, IMPLICIT or AUTOMATIC TAGS, or ::= could stand here; || 2
types,m,T | || m:1:15: refused 22 Syntax: the token cannot stand here, or more is needed; | 2
octets,m,T,in | 0500 || m:1:15: refused 22 Syntax: the token cannot stand here, or more is needed; | 2
M DEFINITIONS:
module,m | | m:1:14: refused 22 Syntax: EXPLICIT, IMPLICIT or AUTOMATIC TAGS, or ::= could stand here; || 2
M DEFINITIONS ::= BEGIN T ::= END:
module,m | | m:1:31: refused 22 Syntax: END: a type, or BEGIN behind a header could stand here; || 2
M DEFINITIONS ::= BEGIN T ::= U ::= NULL END:
module,m | | m:1:33: refused 22 Syntax: ::=: OPTIONAL, DEFAULT, a comma or } behind a type, the next assignment, or ::= behind a name could stand here; || 2
M DEFINITIONS ::= BEGIN T ::= SEQUENCE { a NULL, U ::= NULL END:
module,m | | m:1:50: refused 22 Syntax: U: a name with a small letter could stand here; || 2
refusal,9 | | 9 Repeated; A component of a SET stands twice. Returned by the readers.; for example: SET of an INTEGER, 31 06 02 01 07 02 01 07.; || 0
refusal,20 | || asn1x-view: no refusal has the number 20: they are 1 to 17 and 21 to 33; | 64
";

// Runs each row of a table, and fails where something else is printed, and where there is none.
fn check_runs(alloc: Global, table: &str) -> Result<(), Fail> {
    let mut module = "";
    for row in rows_of(table)? {
        if let Some(text) = row.strip_suffix(':') {
            module = text;
        } else if is_row(row) {
            check_run(alloc, module, row)?;
        }
    }
    Ok(())
}

/// The command line of the words behind the program's name, with commas between them.
pub fn line_of(alloc: Global, words: &str) -> Result<Line, Fail> {
    let words = format!(in alloc; "asn1x-view,{words}")?;
    let words: Vec<&str> = words.as_str().split(',').collect(alloc)?;
    match Line::from_words(alloc, words.as_slice()) {
        Ok(line) => Ok(line),
        Err(_) => Err("no command line".into()),
    }
}

fn check_run(alloc: Global, module: &str, row: &str) -> Result<(), Fail> {
    let (words, input, wanted) = three(row)?;
    let input = unhex(alloc, input.as_bytes())?;
    let printed = run_over(alloc, &line_of(alloc, words)?, module, input.as_slice());
    if row.starts_with("json,") && !row.contains("--indent") {
        check_json(alloc, row, printed.0.as_slice())?;
    }
    check_printed(alloc, row, &printed, wanted)
}

// The standard output, the standard error and the status.
type Printed = (Vec<u8>, Vec<u8>, u8);

fn run_over(alloc: Global, line: &Line, module: &str, input: &[u8]) -> Printed {
    let written = RefCell::new(String::new(alloc));
    let file_system = Fake {
        alloc,
        module,
        input,
        written: &written,
    };
    let mut out = Vec::new(alloc);
    let mut err = Vec::new(alloc);
    let status = run(alloc, line, &file_system, &mut out, &mut err);
    (out, err, status)
}

// The text of what is printed.
fn text_of(alloc: Global, (out, err, status): &Printed) -> Result<String, Fail> {
    let out = spaced(alloc, out.as_slice())?;
    let err = spaced(alloc, err.as_slice())?;
    let text = format!(in alloc; "{} | {} | {status}", out.as_str(), err.as_str())?;
    spaced(alloc, text.as_bytes())
}

fn check_printed(alloc: Global, row: &str, printed: &Printed, wanted: &str) -> Result<(), Fail> {
    let found = text_of(alloc, printed)?;
    let wanted = spaced(alloc, wanted.as_bytes())?;
    if found.as_str().trim() == wanted.as_str().trim() {
        return Ok(());
    }
    let found = found.as_str();
    Err(Fail::new(format_args!("{row} printed {found}")))
}

// Fails where `serde_json` does not read a line of JSON, or reads a value with another text. It prints members in an
// order of its own, so the lengths of the texts are compared.
fn check_json(alloc: Global, row: &str, octets: &[u8]) -> Result<(), Fail> {
    let text = std::str::from_utf8(octets).unwrap_or("?");
    for line in text.lines() {
        let again = match Value::from_str(alloc, line) {
            Ok(value) => value.to_string(alloc)?,
            Err(_) => String::new(alloc),
        };
        if again.len() != line.len() {
            let again = again.as_str();
            return Err(Fail::new(format_args!(
                "{row} printed {line}, which serde_json prints as {again}"
            )));
        }
    }
    Ok(())
}

// The text with one space for each run of them and around bars, and a semicolon for each line feed.
fn spaced(alloc: Global, octets: &[u8]) -> Result<String, Fail> {
    let mut text = String::new(alloc);
    let characters = std::str::from_utf8(octets).unwrap_or("?");
    let mut was_space = false;
    for character in characters.chars() {
        let character = if character == '\n' { ';' } else { character };
        if character == '|' {
            text.push_str(" | ")?;
        } else if character != ' ' || !was_space {
            text.push(character)?;
        }
        was_space = character == ' ' || character == '|';
    }
    Ok(text)
}

#[test]
fn runs(rt: HostRuntime) -> Result<(), Fail> {
    check_runs(rt.alloc(), RUNS)
}
