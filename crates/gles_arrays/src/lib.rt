// The calls of the client arrays and of the current colour and texture coordinates. Each takes the context by value and gives it back with the call's number.
#![tactic(auto)]

ghost use Rattle.arrays.specs.Arrays.{ArrayCall};
ghost use Rattle.arrays.specs.Attributes.{AttributeCall};
ghost use Rattle.context.specs.Calls.{Call, ObjectCall};
ghost use Rattle.context.specs.Contract.{Does};

use arrays::ArrayKind;
use context::{Context, Reply};

pub fn set_vertex_pointer(mut c: Context, size: u32, ty: u32, stride: u32, pointer: u32) -> Reply
    ensures { Does (Call.object (ObjectCall.array (ArrayCall.vertex_pointer size ty stride pointer))) c result.number result.context }
{
    if !c.is_sound() {
        return c.refuse();
    }
    let binding = c.buffers.array_buffer;
    let done = c
        .arrays
        .set_pointer(ArrayKind::Vertex, binding, size, ty, stride, pointer);
    c.answer(done)
}

pub fn set_color_pointer(mut c: Context, size: u32, ty: u32, stride: u32, pointer: u32) -> Reply
    ensures { Does (Call.object (ObjectCall.array (ArrayCall.color_pointer size ty stride pointer))) c result.number result.context }
{
    if !c.is_sound() {
        return c.refuse();
    }
    let binding = c.buffers.array_buffer;
    let done = c
        .arrays
        .set_pointer(ArrayKind::Color, binding, size, ty, stride, pointer);
    c.answer(done)
}

// Normals have three components.
pub fn set_normal_pointer(mut c: Context, ty: u32, stride: u32, pointer: u32) -> Reply
    ensures { Does (Call.object (ObjectCall.array (ArrayCall.normal_pointer ty stride pointer))) c result.number result.context }
{
    if !c.is_sound() {
        return c.refuse();
    }
    let binding = c.buffers.array_buffer;
    let done = c
        .arrays
        .set_pointer(ArrayKind::Normal, binding, 3, ty, stride, pointer);
    c.answer(done)
}

pub fn set_texcoord_pointer(mut c: Context, size: u32, ty: u32, stride: u32, pointer: u32) -> Reply
    ensures { Does (Call.object (ObjectCall.array (ArrayCall.texcoord_pointer size ty stride pointer))) c result.number result.context }
{
    if !c.is_sound() {
        return c.refuse();
    }
    let binding = c.buffers.array_buffer;
    let done = c
        .arrays
        .set_pointer(ArrayKind::TexCoord, binding, size, ty, stride, pointer);
    c.answer(done)
}

pub fn set_client_state(mut c: Context, array: u32, on: bool) -> Reply
    ensures { Does (Call.object (ObjectCall.array (ArrayCall.client_state array on))) c result.number result.context }
{
    if !c.is_sound() {
        return c.refuse();
    }
    let done = c.arrays.set_client_state(array, on);
    c.answer(done)
}

pub fn set_client_active_texture(mut c: Context, unit: u32) -> Reply
    ensures { Does (Call.object (ObjectCall.array (ArrayCall.client_unit unit))) c result.number result.context }
{
    if !c.is_sound() {
        return c.refuse();
    }
    let done = c.arrays.set_client_active_texture(unit);
    c.answer(done)
}

// The current colour.
pub fn set_color(mut c: Context, color: [f32; 4]) -> Reply
    ensures { Does (Call.attribute (AttributeCall.color color)) c result.number result.context }
{
    if !c.is_sound() {
        return c.refuse();
    }
    c.attributes.set_color(color);
    c.note(0)
}

pub fn set_multi_texcoord(mut c: Context, unit: u32, s: f32, t: f32) -> Reply
    ensures { Does (Call.attribute (AttributeCall.multi_texcoord unit s t)) c result.number result.context }
{
    if !c.is_sound() {
        return c.refuse();
    }
    let done = c.attributes.set_multi_texcoord(unit, s, t);
    c.answer(done)
}
