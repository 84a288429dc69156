//! Keys and contents, as the tests here make them.

use hk_base::{Content, Data, Key};
use std::alloc::Global;
use std::process::Abort;

pub fn key(rt: &impl Abort, alloc: Global, name: &[u8]) -> Key {
    Key::read(alloc, name).expect(rt, "a key")
}

pub fn content(rt: &impl Abort, alloc: Global, data: &[u8]) -> Content {
    let bytes = Data::read(alloc, data).expect(rt, "data");
    Content { flags: 0, bytes }
}
