//! What a caller of C gets.

use crate::held::HeldType;
use crate::type_calls::{asn1x_name, asn1x_type_free, asn1x_type_from};
use crate::value_calls::{
    asn1x_check, asn1x_convert, asn1x_convert_first, asn1x_first, asn1x_show, asn1x_show_first,
};
use std::alloc::Global;
use std::test::Fail;

const MODULE: &[u8] =
    b"M DEFINITIONS ::= BEGIN\n  T ::= SEQUENCE OF BOOLEAN\n    L ::= SET OF L\nEND";

// A value that BER spells in one of its many ways, another, and what no value begins with.
const OCTETS: &[u8] = &[
    0x30, 0x80, 0x01, 0x01, 0x2A, 0x00, 0x00, 0x30, 0x00, 0x31, 0x00,
];

// A name, and the number, line and column that it gives. The last two are no UTF-8.
const NAMES: &[(&[u8], (u32, u32, u32))] = &[
    (b"T", (0, 0, 0)),
    (b"U", (24, 1, 1)),
    (b"\xFF", (255, 1, 1)),
    (b"T\xC3", (255, 1, 1)),
];

// The numbers of a rule to read by and of one to write by, of which one is none.
const NO_RULES: &[(u32, u32)] = &[(3, 2), (0, 3), (0, 0), (0xFFFF_FFFF, 1)];

fn held(alloc: Global) -> HeldType {
    let mut held = HeldType::none();
    let _fault = asn1x_type_from(alloc, &mut held, MODULE, b"T".as_slice());
    held
}

#[test]
fn writes_where_there_is_room(rt: HostRuntime) -> Result<(), Fail> {
    let mut ty = held(rt.alloc());
    let mut room = [0; 8];
    let done = asn1x_convert(rt.alloc(), &mut ty, 0, 2, &OCTETS[..9], &mut room[..7]);
    assert_eq!(rt; (done.refusal, done.values, done.octets), (0, 2, 7));
    assert_eq!(rt; room, [0x30, 0x03, 0x01, 0x01, 0xFF, 0x30, 0x00, 0]);
    let mut room = [0xAA; 6];
    let done = asn1x_convert(rt.alloc(), &mut ty, 0, 2, &OCTETS[..9], &mut room);
    assert_eq!(rt; (done.refusal, done.values, done.octets), (0, 2, 7));
    assert_eq!(rt; room, [0xAA; 6]);
    asn1x_type_free(rt.alloc(), &mut ty);
    Ok(())
}

#[test]
fn counts_the_values_before_a_refusal(rt: HostRuntime) -> Result<(), Fail> {
    let mut ty = held(rt.alloc());
    let mut room = [0; 13];
    let done = asn1x_show(rt.alloc(), &mut ty, 0, OCTETS, &mut room);
    assert_eq!(rt; (done.refusal, done.values, done.octets), (2, 2, 13));
    assert_eq!(rt; room.as_slice(), b"{ TRUE }\n{ }\n".as_slice());
    let done = asn1x_check(rt.alloc(), &mut ty, 2, OCTETS);
    assert_eq!(rt; (done.refusal, done.values, done.octets), (12, 0, 0));
    asn1x_type_free(rt.alloc(), &mut ty);
    Ok(())
}

#[test]
fn goes_from_value_to_value(rt: HostRuntime) -> Result<(), Fail> {
    let mut ty = held(rt.alloc());
    let done = asn1x_first(rt.alloc(), &mut ty, 0, OCTETS);
    assert_eq!(rt; (done.refusal, done.values, done.octets), (0, 1, 7));
    let done = asn1x_first(rt.alloc(), &mut ty, 0, &OCTETS[..6]);
    assert_eq!(rt; (done.refusal, done.values, done.octets), (1, 0, 0));
    asn1x_type_free(rt.alloc(), &mut ty);
    let done = asn1x_first(rt.alloc(), &mut ty, 0, OCTETS);
    assert_eq!(rt; (done.refusal, done.values, done.octets), (255, 0, 0));
    Ok(())
}

#[test]
fn converts_values_one_by_one(rt: HostRuntime) -> Result<(), Fail> {
    let mut ty = held(rt.alloc());
    let mut room = [0; 6];
    let one = asn1x_convert_first(rt.alloc(), &mut ty, 0, 2, OCTETS, &mut room[..5]);
    assert_eq!(rt; (one.refusal, one.used, one.octets), (0, 7, 5));
    let one = asn1x_convert_first(rt.alloc(), &mut ty, 0, 2, &OCTETS[7..], &mut room[5..]);
    assert_eq!(rt; (one.refusal, one.used, one.octets), (0, 2, 2));
    assert_eq!(rt; room, [0x30, 0x03, 0x01, 0x01, 0xFF, 0]);
    asn1x_type_free(rt.alloc(), &mut ty);
    Ok(())
}

#[test]
fn says_why_no_first_value_is_converted(rt: HostRuntime) -> Result<(), Fail> {
    let mut ty = held(rt.alloc());
    let mut room = [0; 6];
    let one = asn1x_convert_first(rt.alloc(), &mut ty, 0, 2, &OCTETS[9..], &mut room);
    assert_eq!(rt; (one.refusal, one.used, one.octets), (2, 0, 0));
    let one = asn1x_convert_first(rt.alloc(), &mut ty, 0, 2, &OCTETS[..6], &mut room);
    assert_eq!(rt; (one.refusal, one.used, one.octets), (1, 0, 0));
    let one = asn1x_convert_first(rt.alloc(), &mut ty, 0, 0, OCTETS, &mut room);
    assert_eq!(rt; (one.refusal, one.used, one.octets), (255, 0, 0));
    assert_eq!(rt; room, [0; 6]);
    asn1x_type_free(rt.alloc(), &mut ty);
    Ok(())
}

#[test]
fn shows_values_one_by_one(rt: HostRuntime) -> Result<(), Fail> {
    let mut ty = held(rt.alloc());
    let mut room = [0; 9];
    let one = asn1x_show_first(rt.alloc(), &mut ty, 0, OCTETS, &mut room[..8]);
    assert_eq!(rt; (one.refusal, one.used, one.octets), (0, 7, 9));
    assert_eq!(rt; room, [0; 9]);
    let one = asn1x_show_first(rt.alloc(), &mut ty, 0, OCTETS, &mut room);
    assert_eq!(rt; (one.refusal, one.used, one.octets), (0, 7, 9));
    assert_eq!(rt; room.as_slice(), b"{ TRUE }\n".as_slice());
    let one = asn1x_show_first(rt.alloc(), &mut ty, 2, OCTETS, &mut room);
    assert_eq!(rt; (one.refusal, one.used, one.octets), (12, 0, 0));
    asn1x_type_free(rt.alloc(), &mut ty);
    Ok(())
}

#[test]
fn takes_no_other_number_for_a_rule(rt: HostRuntime) -> Result<(), Fail> {
    let mut ty = held(rt.alloc());
    let mut room = [0xAA; 8];
    for (from, to) in NO_RULES {
        let done = asn1x_convert(rt.alloc(), &mut ty, *from, *to, &OCTETS[..9], &mut room);
        assert_eq!(rt; (done.refusal, done.values, done.octets), (255, 0, 0));
        let one = asn1x_convert_first(rt.alloc(), &mut ty, *from, *to, OCTETS, &mut room);
        assert_eq!(rt; (one.refusal, one.used, one.octets), (255, 0, 0));
    }
    let done = asn1x_show(rt.alloc(), &mut ty, 3, &OCTETS[..9], &mut room);
    assert_eq!(rt; (done.refusal, done.values, done.octets), (255, 0, 0));
    let done = asn1x_check(rt.alloc(), &mut ty, 3, &OCTETS[..9]);
    assert_eq!(rt; (done.refusal, done.values, done.octets), (255, 0, 0));
    let done = asn1x_first(rt.alloc(), &mut ty, 3, OCTETS);
    assert_eq!(rt; (done.refusal, done.values, done.octets), (255, 0, 0));
    let one = asn1x_show_first(rt.alloc(), &mut ty, 3, OCTETS, &mut room);
    assert_eq!(rt; (one.refusal, one.used, one.octets), (255, 0, 0));
    assert_eq!(rt; room, [0xAA; 8]);
    asn1x_type_free(rt.alloc(), &mut ty);
    Ok(())
}

#[test]
fn makes_types_by_names_that_are_text(rt: HostRuntime) -> Result<(), Fail> {
    let mut ty = HeldType::none();
    for (name, place) in NAMES {
        let fault = asn1x_type_from(rt.alloc(), &mut ty, MODULE, name);
        assert_eq!(rt; (fault.number, fault.line, fault.column), *place);
    }
    asn1x_type_free(rt.alloc(), &mut ty);
    Ok(())
}

#[test]
fn says_where_a_module_is_refused(rt: HostRuntime) -> Result<(), Fail> {
    let mut ty = held(rt.alloc());
    let fault = asn1x_type_from(rt.alloc(), &mut ty, MODULE, b"L".as_slice());
    assert_eq!(rt; (fault.number, fault.line, fault.column), (25, 3, 5));
    let mut name = [0; 5];
    assert_eq!(rt; asn1x_name(fault.number, &mut name), 5);
    assert_eq!(rt; name.as_slice(), b"Cycle".as_slice());
    assert_eq!(rt; asn1x_name(1, &mut name), 9);
    assert_eq!(rt; asn1x_name(18, &mut name), 0);
    asn1x_type_free(rt.alloc(), &mut ty);
    Ok(())
}
