// Known values in both fields, operands outside included.
use crate::{Bytes, Field, Mod37};

#[test]
fn known_values(rt: HostRuntime) {
    let sums = [
        Bytes::add(5, 3),
        Bytes::sub(7, 7),
        Mod37::add(36, 2),
        Mod37::add(37, 1),
        Mod37::sub(1, 2),
    ];
    let negatives = [Bytes::neg(255), Mod37::neg(1), Mod37::neg(255)];
    let products = [
        Bytes::mul(128, 2),
        Bytes::mul(255, 255),
        Bytes::mul(0, 255),
        Mod37::mul(19, 2),
        Mod37::mul(2, 37),
    ];
    let inverses = [
        Bytes::inv(2),
        Bytes::inv(0),
        Mod37::inv(2),
        Mod37::inv(0),
        Mod37::inv(37),
    ];
    assert_eq!(rt; sums, [6, 0, 1, 0, 36]);
    assert_eq!(rt; negatives, [255, 36, 0]);
    assert_eq!(rt; products, [29, 226, 0, 1, 0]);
    assert_eq!(rt; inverses, [142, 0, 19, 0, 0]);
}
