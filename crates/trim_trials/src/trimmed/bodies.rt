//! Small modules with the constructs of three standards bodies, as each of them writes.

use super::is_written;
use std::test::Fail;

// A text with two modules in the notation of 1988, and a page that ends within one.
const IETF: &str = "
Appendix A.  ASN.1 Modules

   Notes ::= the text that is sent; see NotesBase DEFINITIONS below.

   NotesV1 { iso(1) identified-organization(3) dod(6) internet(1) 99 }

   DEFINITIONS IMPLICIT TAGS ::=

   BEGIN

   -- EXPORTS ALL --

   IMPORTS
        AlgorithmIdentifier, Name
           FROM NotesBase { iso(1) 98 };

   id-note OBJECT IDENTIFIER ::= { iso(1) 99 }    -- arc of notes
   ub-note INTEGER ::= 32768

   Note ::= SEQUENCE {
        version         [0] EXPLICIT Version DEFAULT v1,
        issuer              Name,
        algorithm           AlgorithmIdentifier,
        sent                Time,
        flags           [1] Flags OPTIONAL,



Example                      Informational                      [Page 7]
\u{c}
RFC 9999                 An Exchange of Notes              November 2026


        text            [2] Text OPTIONAL,
        extensions      [3] EXPLICIT Extensions OPTIONAL
                            -- If present, version MUST be v2
        }

   Version ::= INTEGER { v1(0), v2(1) }

   Time ::= CHOICE {
        utcTime        UTCTime,
        generalTime    GeneralizedTime }

   Flags ::= BIT STRING { urgent (0), secret (1) }

   Text ::= TeletexString (SIZE (1..ub-note))

   Extensions ::= SEQUENCE SIZE (1..MAX) OF Extension

   Extension ::= SEQUENCE  {
        extnID      OBJECT IDENTIFIER,
        critical    BOOLEAN DEFAULT FALSE,
        extnValue   OCTET STRING
                    -- contains the DER encoding of an ASN.1 value
        }

   END

   NotesBase { iso(1) 98 } DEFINITIONS EXPLICIT TAGS ::= BEGIN

   AlgorithmIdentifier ::= SEQUENCE {
        algorithm   OBJECT IDENTIFIER,
        parameters  ANY DEFINED BY algorithm OPTIONAL }

   Name ::= CHOICE { -- two possibilities so far --
        rdnSequence  SEQUENCE OF SET OF Pair,
        handle       [4] IA5String }

   Pair ::= SEQUENCE {
        type     OBJECT IDENTIFIER,
        value    ANY -- DEFINED BY type -- }

   END
";

const OF_IETF: &str = "NotesV1 DEFINITIONS EXPLICIT TAGS ::= BEGIN \
Note ::= SEQUENCE { version [0] EXPLICIT Version DEFAULT 0, issuer Name, algorithm AlgorithmIdentifier, sent Time, \
flags [1] IMPLICIT Flags OPTIONAL, text [2] IMPLICIT OCTET STRING OPTIONAL, \
extensions [3] EXPLICIT Extensions OPTIONAL } \
Version ::= INTEGER \
Name ::= CHOICE { rdnSequence SEQUENCE OF SET OF Pair, handle [4] EXPLICIT IA5String } \
AlgorithmIdentifier ::= SEQUENCE { algorithm OBJECT IDENTIFIER, parameters NULL OPTIONAL } \
Time ::= CHOICE { utcTime UTCTime, generalTime GeneralizedTime } \
Flags ::= BIT STRING { urgent(0), secret(1) } \
Extensions ::= SEQUENCE OF Extension \
Pair ::= SEQUENCE { type OBJECT IDENTIFIER, value PrintableString } \
Extension ::= SEQUENCE { extnID OBJECT IDENTIFIER, critical BOOLEAN DEFAULT FALSE, extnValue OCTET STRING } \
END";

// Modules with automatic tags, extension markers and version brackets.
const THREE_GPP: &str = "
-- ASN1START
-- TAG-CALLS-START

Calls-IEs {itu-t (0) identified-organization (4) etsi (0) 99 (99)}

DEFINITIONS AUTOMATIC TAGS ::=

BEGIN

IMPORTS
\tmaxLegs,
\tCell
FROM Calls-Constants;

CallRecord ::=                  CHOICE {
    mobile                          MobileRecord,
    criticalExtensions              CHOICE {
        later                           LaterRecord,
        spare3 NULL, spare2 NULL, spare1 NULL
    },
    ...
}

MobileRecord ::=                SEQUENCE {
    legs                            SEQUENCE (SIZE (1..maxLegs)) OF Leg,
    cell                            Cell                                OPTIONAL,   -- Need R
    cause                           ENUMERATED {normal, busy, ..., lost},
    lateNonCriticalExtension        OCTET STRING (CONTAINING LaterRecord)  OPTIONAL,
    ...,
    [[
    quality-r15                     INTEGER (0..63)                     OPTIONAL,   -- Cond Quality
    band-r15                        BOOLEAN
    ]],
    [[  kept-v1690                  SEQUENCE {}                         OPTIONAL
    ]]
}

LaterRecord ::=                 SEQUENCE {
    id                              BIT STRING (SIZE (28)),
    kind                            Kind                                DEFAULT fast
}

Kind ::=                        ENUMERATED {slow, fast, spare2, spare1}

Leg ::=                         SEQUENCE {
    digits                          NumericString (SIZE (1..15)),
    duration                        INTEGER (0..86400)                  DEFAULT 0
}

-- TAG-CALLS-STOP
-- ASN1STOP

END

Calls-Constants DEFINITIONS AUTOMATIC TAGS ::= BEGIN
maxLegs                         INTEGER ::= 8       -- Maximum number of legs
Cell ::= SEQUENCE { plmn OCTET STRING (SIZE (3)), id BIT STRING (SIZE (28)), ... }
END
";

const OF_THREE_GPP: &str = "Calls-IEs DEFINITIONS EXPLICIT TAGS ::= BEGIN \
CallRecord ::= CHOICE { mobile [0] IMPLICIT MobileRecord, criticalExtensions [1] EXPLICIT CHOICE { \
later [0] IMPLICIT LaterRecord, spare3 [1] IMPLICIT NULL, spare2 [2] IMPLICIT NULL, spare1 [3] IMPLICIT NULL } } \
MobileRecord ::= SEQUENCE { legs [0] IMPLICIT SEQUENCE OF Leg, cell [1] IMPLICIT Cell OPTIONAL, \
cause [2] IMPLICIT ENUMERATED { normal(0), busy(1), lost(2) }, \
lateNonCriticalExtension [3] IMPLICIT OCTET STRING OPTIONAL, quality-r15 [4] IMPLICIT INTEGER OPTIONAL, \
band-r15 [5] IMPLICIT BOOLEAN OPTIONAL, kept-v1690 [6] IMPLICIT SEQUENCE { } OPTIONAL } \
LaterRecord ::= SEQUENCE { id [0] IMPLICIT BIT STRING, kind [1] IMPLICIT Kind DEFAULT fast } \
Leg ::= SEQUENCE { digits [0] IMPLICIT NumericString, duration [1] IMPLICIT INTEGER DEFAULT 0 } \
Cell ::= SEQUENCE { plmn [0] IMPLICIT OCTET STRING, id [1] IMPLICIT BIT STRING } \
Kind ::= ENUMERATED { slow(0), fast(1), spare2(2), spare1(3) } \
END";

// Modules with a class, objects, COMPONENTS OF, and values in tags and bounds.
const ITU_T: &str = "
Exchange-Protocol {joint-iso-itu-t ds(5) module(1) exchange(99) 1}
DEFINITIONS ::=
BEGIN
-- EXPORTS All --
IMPORTS
  -- from ITU-T Rec. X.999 | ISO/IEC 99999-1
  id-at, basics
    FROM UsefulDefinitions {joint-iso-itu-t ds(5) module(1) usefulDefinitions(0) 9}
  CommonArguments, Priority, ub-name, tag-of-invoke
    FROM Exchange-Basics basics ;

OPERATION ::= CLASS {
  &ArgumentType          OPTIONAL,
  &ResultType            OPTIONAL,
  &operationCode  Code   UNIQUE }
WITH SYNTAX {
  [ARGUMENT  &ArgumentType]
  [RESULT    &ResultType]
  CODE       &operationCode }

read OPERATION ::= {
  ARGUMENT  ReadArgument
  CODE      local:1 }

Operations OPERATION ::= { read | list, ... }

Invoke ::= [APPLICATION tag-of-invoke] IMPLICIT SEQUENCE {
  invokeId   InvokeId,
  opcode     OPERATION.&operationCode ({Operations}),
  argument   OPERATION.&ArgumentType ({Operations}{@opcode}) OPTIONAL }
  (CONSTRAINED BY {-- must conform to the above definition --} ! rejectProblem : mistyped)

InvokeId ::= CHOICE {
  present  INTEGER,
  absent   NULL }

Code ::= CHOICE {
  local   INTEGER,
  global  OBJECT IDENTIFIER }

ReadArgument ::= SET {
  object      [0]  Name,
  selection   [1]  SelectionBits DEFAULT {attributes},
  COMPONENTS OF    CommonArguments }

Name ::= PrintableString (SIZE (1..ub-name))

SelectionBits ::= BIT STRING { attributes(0), values(1) } (SIZE (2))

id-at-object OBJECT IDENTIFIER ::= {id-at 99}

END -- Exchange-Protocol

Exchange-Basics {joint-iso-itu-t ds(5) module(1) basics(98) 1} DEFINITIONS ::= BEGIN
CommonArguments ::= SET {
  priority        [30]  Priority DEFAULT medium,
  aliased         [26]  BOOLEAN DEFAULT FALSE,
  ...,
  later           [24]  REAL }
Priority ::= INTEGER { low(0), medium(1), high(2) } (low | medium | high)
ub-name INTEGER ::= 64
tag-of-invoke INTEGER ::= 3
END
";

const OF_ITU_T: &str = "Exchange-Protocol DEFINITIONS EXPLICIT TAGS ::= BEGIN \
Invoke ::= [APPLICATION 3] IMPLICIT SEQUENCE { invokeId InvokeId, opcode Code, argument ReadArgument OPTIONAL } \
InvokeId ::= CHOICE { present INTEGER, absent NULL } \
Code ::= CHOICE { local INTEGER, global OBJECT IDENTIFIER } \
ReadArgument ::= SET { object [0] EXPLICIT Name, selection [1] EXPLICIT SelectionBits DEFAULT '1'B, \
priority [30] EXPLICIT Priority DEFAULT 1, aliased [26] EXPLICIT BOOLEAN DEFAULT FALSE } \
Name ::= PrintableString \
SelectionBits ::= BIT STRING { attributes(0), values(1) } \
Priority ::= INTEGER \
END";

#[test]
fn modules_of_three_bodies(rt: HostRuntime) -> Result<(), Fail> {
    // (text, words, what is written, what is told)
    let cases = [
        (
            IETF,
            "Note --as AlgorithmIdentifier.parameters=NULL --as NotesBase.Pair.value=PrintableString",
            OF_IETF,
            "",
        ),
        (THREE_GPP, "CallRecord", OF_THREE_GPP, ""),
        (
            ITU_T,
            "Invoke --as Invoke.opcode=Code --as Invoke.argument=ReadArgument --narrow",
            OF_ITU_T,
            "m.asn:60:19: narrowed: CommonArguments.later is left out: REAL at CommonArguments.later",
        ),
    ];
    for (text, words, wanted, told) in cases {
        assert!(rt;
            is_written(rt.alloc(), text, words, wanted, told)?,
            "for {words}"
        );
    }
    Ok(())
}
