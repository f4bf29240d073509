// Calls on memory alone.
use crate::memory::Memory;
use list_lines::call::VramCall;
use list_lines::said::{Said, answer, part, stored};
use vram::{
    deplane, peek_u8, plane_and, plane_or, plane_set, read_glyph, read_linear, read_u8,
    serialize_linear, write_u8,
};

pub fn made(call: VramCall, memory: &mut Memory) -> Said {
    match call {
        VramCall::ReadU8(plane, at) => answer(read_u8(&memory.read(), plane, at)),
        VramCall::PeekU8(plane, at) => answer(peek_u8(&memory.read(), plane, at)),
        VramCall::ReadGlyph(at) => answer(read_glyph(&memory.read(), at)),
        VramCall::ReadLinear(place) => answer(read_linear(&memory.read(), place)),
        VramCall::SerializeLinear(at) => part(serialize_linear(&memory.read(), at)),
        VramCall::WriteU8(plane, at, byte) => stored(write_u8(
            &mut memory.store(),
            plane,
            at,
            byte,
        )),
        VramCall::PlaneSet(plane, at, byte) => stored(plane_set(
            &mut memory.store(),
            plane,
            at,
            byte,
        )),
        VramCall::PlaneAnd(plane, at, byte) => stored(plane_and(
            &mut memory.store(),
            plane,
            at,
            byte,
        )),
        VramCall::PlaneOr(plane, at, byte) => stored(plane_or(
            &mut memory.store(),
            plane,
            at,
            byte,
        )),
        VramCall::Deplane(at) => answer(deplane(&mut memory.remake(), at)),
    }
}
