// The calls of the settings, and the one that takes the error. Each takes the context by value and gives it back with the call's number.
#![tactic(auto)]

ghost use Rattle.std.specs.Prelude.{◌≡◌};
ghost use Rattle.pipeline.specs.Pipeline.{PipelineCall};
ghost use Rattle.context.specs.Calls.{Call};
ghost use Rattle.context.specs.Rules.{error_code};
ghost use Rattle.context.specs.Contract.{Does};

use context::{Context, ErrorReply, Reply};
use refusal::Refusal;

pub fn set_active_texture(mut c: Context, unit: u32) -> Reply
    ensures { Does (Call.pipeline (PipelineCall.active_texture unit)) c result.number result.context }
{
    if !c.is_sound() {
        return c.refuse();
    }
    let done = c.pipeline.set_active_texture(unit);
    c.answer(done)
}

pub fn set_capability(mut c: Context, cap: u32, on: bool) -> Reply
    ensures { Does (Call.pipeline (PipelineCall.capability cap on)) c result.number result.context }
{
    if !c.is_sound() {
        return c.refuse();
    }
    let done = c.pipeline.set_capability(cap, on);
    c.answer(done)
}

pub fn tex_env(mut c: Context, pname: u32, value: u32) -> Reply
    ensures { Does (Call.pipeline (PipelineCall.tex_env pname value)) c result.number result.context }
{
    if !c.is_sound() {
        return c.refuse();
    }
    let done = c.pipeline.tex_env(pname, value);
    c.answer(done)
}

pub fn set_tex_env_color(mut c: Context, color: [f32; 4]) -> Reply
    ensures { Does (Call.pipeline (PipelineCall.tex_env_color color)) c result.number result.context }
{
    if !c.is_sound() {
        return c.refuse();
    }
    let done = c.pipeline.set_tex_env_color(color);
    c.answer(done)
}

pub fn set_depth_func(mut c: Context, func: u32) -> Reply
    ensures { Does (Call.pipeline (PipelineCall.depth_func func)) c result.number result.context }
{
    if !c.is_sound() {
        return c.refuse();
    }
    let done = c.pipeline.set_depth_func(func);
    c.answer(done)
}

pub fn set_depth_range(mut c: Context, near: f32, far: f32) -> Reply
    ensures { Does (Call.pipeline (PipelineCall.depth_range near far)) c result.number result.context }
{
    if !c.is_sound() {
        return c.refuse();
    }
    c.pipeline.set_depth_range(near, far);
    c.note(0)
}

pub fn set_alpha_func(mut c: Context, func: u32, reference: f32) -> Reply
    ensures { Does (Call.pipeline (PipelineCall.alpha_func func reference)) c result.number result.context }
{
    if !c.is_sound() {
        return c.refuse();
    }
    let done = c.pipeline.set_alpha_func(func, reference);
    c.answer(done)
}

pub fn set_blend_func(mut c: Context, src: u32, dst: u32) -> Reply
    ensures { Does (Call.pipeline (PipelineCall.blend_func src dst)) c result.number result.context }
{
    if !c.is_sound() {
        return c.refuse();
    }
    let done = c.pipeline.set_blend_func(src, dst);
    c.answer(done)
}

pub fn set_cull_face(mut c: Context, mode: u32) -> Reply
    ensures { Does (Call.pipeline (PipelineCall.cull_face mode)) c result.number result.context }
{
    if !c.is_sound() {
        return c.refuse();
    }
    let done = c.pipeline.set_cull_face(mode);
    c.answer(done)
}

pub fn set_front_face(mut c: Context, mode: u32) -> Reply
    ensures { Does (Call.pipeline (PipelineCall.front_face mode)) c result.number result.context }
{
    if !c.is_sound() {
        return c.refuse();
    }
    let done = c.pipeline.set_front_face(mode);
    c.answer(done)
}

pub fn set_fog(mut c: Context, pname: u32, value: f32) -> Reply
    ensures { Does (Call.pipeline (PipelineCall.fog pname value)) c result.number result.context }
{
    if !c.is_sound() {
        return c.refuse();
    }
    let done = c.pipeline.set_fog(pname, value);
    c.answer(done)
}

// The code in the error slot, which is empty afterwards.
pub fn take_error(c: Context) -> ErrorReply
    ensures does { Does Call.take_error c result.number result.context }
    ensures code { result.code ≡ error_code result.number c.error }
{
    if !c.is_sound() {
        return ErrorReply {
            number: u32::from(Refusal::Invalid),
            code: 0,
            context: c,
        };
    }
    ErrorReply {
        number: 0,
        code: c.error,
        context: Context { error: 0, ..c },
    }
}
