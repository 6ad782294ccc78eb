// The matrix calls: the mode in force, its current matrix and its saved ones. Each takes the context by value and gives it back with the call's number.
#![tactic(auto)]

ghost use Rattle.std.specs.Prelude.{◌≡◌};
ghost use Rattle.number.specs.Tables.{lookup};
ghost use Rattle.refusal.specs.Refusals.{answer};
ghost use Rattle.refusal.specs.RefusalsCode.{answered};
ghost use Rattle.stack.specs.Stack.{MatrixCall, MatrixUpdate};
ghost use Rattle.context.specs.Calls.{Call};
ghost use Rattle.context.specs.Rules.{matrix_modes, known_number, mode_after};
ghost use Rattle.context.specs.Contract.{Does};

use context::{Context, MatrixMode, Reply};
use matrix::Volume;
use refusal::Refusal;

// The mode that a number names, in the place of another.
fn put_mode(mode: &mut MatrixMode, code: u32) -> Result<(), Refusal>
    ensures { answered result mode.new ≡ answer (known_number (lookup matrix_modes code)) (mode_after code mode.old) }
{
    *mode = MatrixMode::try_from(code)?;
    Ok(())
}

pub fn set_matrix_mode(mut c: Context, mode: u32) -> Reply
    ensures { Does (Call.mode mode) c result.number result.context }
{
    if !c.is_sound() {
        return c.refuse();
    }
    let done = put_mode(&mut c.mode, mode);
    c.answer(done)
}

pub fn load_identity(c: Context) -> Reply
    ensures { Does (Call.matrix (MatrixCall.update MatrixUpdate.load_identity)) c result.number result.context }
{
    c.load(matrix::IDENTITY)
}

pub fn load_matrix(c: Context, m: [f32; 16]) -> Reply
    ensures { Does (Call.matrix (MatrixCall.update (MatrixUpdate.load m))) c result.number result.context }
{
    c.load(m)
}

pub fn mult_matrix(c: Context, m: [f32; 16]) -> Reply
    ensures { Does (Call.matrix (MatrixCall.update (MatrixUpdate.mult m))) c result.number result.context }
{
    c.multiply(Ok(m))
}

// Push and pop lend the stack of the mode in force.
pub fn push_matrix(mut c: Context) -> Reply
    ensures { Does (Call.matrix MatrixCall.push) c result.number result.context }
{
    if !c.is_sound() {
        return c.refuse();
    }
    match c.mode {
        MatrixMode::Modelview => {
            let a = lent_stack::pushed(c.stacks.modelview);
            c.stacks.modelview = a.stack;
            c.note(a.number)
        }
        MatrixMode::Projection => {
            let a = lent_stack::pushed(c.stacks.projection);
            c.stacks.projection = a.stack;
            c.note(a.number)
        }
        MatrixMode::Texture => {
            let a = lent_stack::pushed(c.stacks.texture);
            c.stacks.texture = a.stack;
            c.note(a.number)
        }
    }
}

pub fn pop_matrix(mut c: Context) -> Reply
    ensures { Does (Call.matrix MatrixCall.pop) c result.number result.context }
{
    if !c.is_sound() {
        return c.refuse();
    }
    match c.mode {
        MatrixMode::Modelview => {
            let a = lent_stack::popped(c.stacks.modelview);
            c.stacks.modelview = a.stack;
            c.note(a.number)
        }
        MatrixMode::Projection => {
            let a = lent_stack::popped(c.stacks.projection);
            c.stacks.projection = a.stack;
            c.note(a.number)
        }
        MatrixMode::Texture => {
            let a = lent_stack::popped(c.stacks.texture);
            c.stacks.texture = a.stack;
            c.note(a.number)
        }
    }
}

pub fn translate(c: Context, x: f32, y: f32, z: f32) -> Reply
    ensures { Does (Call.matrix (MatrixCall.update (MatrixUpdate.translate x y z))) c result.number result.context }
{
    c.multiply(Ok(matrix::translate(x, y, z)))
}

pub fn scale(c: Context, x: f32, y: f32, z: f32) -> Reply
    ensures { Does (Call.matrix (MatrixCall.update (MatrixUpdate.scale x y z))) c result.number result.context }
{
    c.multiply(Ok(matrix::scale(x, y, z)))
}

// By the cosine, the sine and the unit axis.
pub fn rotate(c: Context, cosine: f32, sine: f32, x: f32, y: f32, z: f32) -> Reply
    ensures { Does (Call.matrix (MatrixCall.update (MatrixUpdate.rotate cosine sine x y z))) c result.number result.context }
{
    c.multiply(Ok(matrix::rotate(cosine, sine, x, y, z)))
}

pub fn frustum(c: Context, l: f32, r: f32, b: f32, t: f32, n: f32, f: f32) -> Reply
    ensures { Does (Call.matrix (MatrixCall.update (MatrixUpdate.frustum l r b t n f))) c result.number result.context }
{
    let volume = Volume {
        left: l,
        right: r,
        bottom: b,
        top: t,
        near: n,
        far: f,
    };
    c.multiply(volume.check_frustum().and(Ok(volume.frustum())))
}

pub fn ortho(c: Context, l: f32, r: f32, b: f32, t: f32, n: f32, f: f32) -> Reply
    ensures { Does (Call.matrix (MatrixCall.update (MatrixUpdate.ortho l r b t n f))) c result.number result.context }
{
    let volume = Volume {
        left: l,
        right: r,
        bottom: b,
        top: t,
        near: n,
        far: f,
    };
    c.multiply(volume.check_ortho().and(Ok(volume.ortho())))
}
