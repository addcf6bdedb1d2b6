//! Modules that users bring, trimmed to the profile.

use super::Names;
use std::test::Fail;
use test_tables::check;

/// Names and algorithms of certificates (RFC 5280), their open types trimmed.
const CERTIFICATES: &str = "PKIX1Explicit88 DEFINITIONS EXPLICIT TAGS ::= BEGIN
Name ::= CHOICE { rdnSequence RDNSequence }
RDNSequence ::= SEQUENCE OF RelativeDistinguishedName
RelativeDistinguishedName ::= SET OF AttributeTypeAndValue
AttributeTypeAndValue ::= SEQUENCE { type AttributeType, value DirectoryString }
AttributeType ::= OBJECT IDENTIFIER
DirectoryString ::= CHOICE { printableString PrintableString, utf8String UTF8String, bmpString BMPString }
AlgorithmIdentifier ::= SEQUENCE { algorithm OBJECT IDENTIFIER, parameters NULL OPTIONAL }
Version ::= ENUMERATED { v1(0), v2(1), v3(2) }
Time ::= CHOICE { utcTime UTCTime, generalTime GeneralizedTime }
Validity ::= SEQUENCE { notBefore Time, notAfter Time }
KeyUsage ::= BIT STRING { digitalSignature(0), nonRepudiation(1), keyEncipherment(2), dataEncipherment(3), keyAgreement(4), keyCertSign(5), cRLSign(6), encipherOnly(7), decipherOnly(8) }
Begin ::= SEQUENCE { version [0] Version DEFAULT v1, serialNumber INTEGER, issuerUniqueID [1] IMPLICIT BIT STRING OPTIONAL }
END";

// name | type
const OF_CERTIFICATES: &str = "\
Name | CHOICE{ rdnSequence [U16]SEQUENCE OF [U17]SET OF [U16]SEQUENCE{ type [U6]OID value CHOICE{ printableString [U19]Printable utf8String [U12]Utf8 bmpString [U30]Bmp } } }
AlgorithmIdentifier | [U16]SEQUENCE{ algorithm [U6]OID parameters [U5]NULL OPTIONAL }
Validity | [U16]SEQUENCE{ notBefore CHOICE{ utcTime [U23]Utc generalTime [U24]Generalized } notAfter CHOICE{ utcTime [U23]Utc generalTime [U24]Generalized } }
KeyUsage | [U3]NAMED BITS digitalSignature(0) nonRepudiation(1) keyEncipherment(2) dataEncipherment(3) keyAgreement(4) keyCertSign(5) cRLSign(6) encipherOnly(7) decipherOnly(8)
Begin | [U16]SEQUENCE{ version [0]EXPLICIT [U10]ENUMERATED v1(0) v2(1) v3(2) DEFAULT Enumerated(0) serialNumber [U2]INTEGER issuerUniqueID [1]BITS OPTIONAL }";

#[test]
fn certificates(rt: HostRuntime) -> Result<(), Fail> {
    let names = Names {
        module: CERTIFICATES,
    };
    check(rt.alloc(), &names, OF_CERTIFICATES)
}

/// Messages of LDAP (RFC 4511), their constraints and extension markers left out.
const DIRECTORY: &str =
    "Lightweight-Directory-Access-Protocol-V3 DEFINITIONS IMPLICIT TAGS ::= BEGIN
LDAPMessage ::= SEQUENCE { messageID MessageID, protocolOp CHOICE { bindRequest BindRequest, unbindRequest UnbindRequest, delRequest DelRequest }, controls [0] Controls OPTIONAL }
MessageID ::= INTEGER
LDAPString ::= OCTET STRING
LDAPDN ::= LDAPString
Controls ::= SEQUENCE OF Control
Control ::= SEQUENCE { controlType OCTET STRING, criticality BOOLEAN DEFAULT FALSE, controlValue OCTET STRING OPTIONAL }
BindRequest ::= [APPLICATION 0] SEQUENCE { version INTEGER, name LDAPDN, authentication AuthenticationChoice }
AuthenticationChoice ::= CHOICE { simple [0] OCTET STRING, sasl [3] SaslCredentials }
SaslCredentials ::= SEQUENCE { mechanism LDAPString, credentials OCTET STRING OPTIONAL }
UnbindRequest ::= [APPLICATION 2] NULL
DelRequest ::= [APPLICATION 10] LDAPDN
END";

// name | type
const OF_DIRECTORY: &str = "\
DelRequest | [A10]OCTETS
BindRequest | [A0]SEQUENCE{ version [U2]INTEGER name [U4]OCTETS authentication CHOICE{ simple [0]OCTETS sasl [3]SEQUENCE{ mechanism [U4]OCTETS credentials [U4]OCTETS OPTIONAL } } }
LDAPMessage | [U16]SEQUENCE{ messageID [U2]INTEGER protocolOp CHOICE{ bindRequest [A0]SEQUENCE{ version [U2]INTEGER name [U4]OCTETS authentication CHOICE{ simple [0]OCTETS sasl [3]SEQUENCE{ mechanism [U4]OCTETS credentials [U4]OCTETS OPTIONAL } } } unbindRequest [A2]NULL delRequest [A10]OCTETS } controls [0]SEQUENCE OF [U16]SEQUENCE{ controlType [U4]OCTETS criticality [U1]BOOLEAN DEFAULT Boolean(false) controlValue [U4]OCTETS OPTIONAL } OPTIONAL }";

#[test]
fn directory_messages(rt: HostRuntime) -> Result<(), Fail> {
    let names = Names { module: DIRECTORY };
    check(rt.alloc(), &names, OF_DIRECTORY)
}

/// A record of a call, in the manner of 3GPP TS 32.298.
const CALLS: &str = "CallRecords DEFINITIONS AUTOMATIC TAGS ::= BEGIN
CallRecord ::= CHOICE { voice VoiceCall, message ShortMessage }
VoiceCall ::= SET { recordType RecordType, calling AddressString, called AddressString OPTIONAL, answered TimeStamp, seconds INTEGER DEFAULT 0, diagnostics Diagnostics OPTIONAL }
ShortMessage ::= SET { calling AddressString, text UTF8String OPTIONAL }
RecordType ::= ENUMERATED { outgoing(0), incoming(1), forwarded(100), roaming }
AddressString ::= OCTET STRING
TimeStamp ::= OCTET STRING
Diagnostics ::= CHOICE { networkCause INTEGER, textCause IA5String }
END";

// name | type
const OF_CALLS: &str = "\
CallRecord | CHOICE{ voice [0]SET{ recordType [0]ENUMERATED outgoing(0) incoming(1) forwarded(100) roaming(2) calling [1]OCTETS called [2]OCTETS OPTIONAL answered [3]OCTETS seconds [4]INTEGER DEFAULT Integer(0) diagnostics [5]EXPLICIT CHOICE{ networkCause [0]INTEGER textCause [1]Ia5 } OPTIONAL } message [1]SET{ calling [0]OCTETS text [1]Utf8 OPTIONAL } }";

#[test]
fn call_records(rt: HostRuntime) -> Result<(), Fail> {
    let names = Names { module: CALLS };
    check(rt.alloc(), &names, OF_CALLS)
}
