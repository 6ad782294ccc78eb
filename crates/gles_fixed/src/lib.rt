// The fixed-point calls (document 02, Q-1). Each argument is a 16.16 number, and each call is its float form on the converted arguments. The matrix calls do the work themselves:
// a second use of the functions of gles_matrix would make both forms slower in a list.
#![tactic(auto)]

ghost use Rattle.std.specs.Prelude.{◌≡◌, map};
ghost use Rattle.number.specs.Numbers.{fixed};
ghost use Rattle.stack.specs.Stack.{MatrixCall, MatrixUpdate};
ghost use Rattle.arrays.specs.Attributes.{AttributeCall};
ghost use Rattle.context.specs.Calls.{Call};
ghost use Rattle.context.specs.Contract.{Does};

use context::{Context, Reply};
use matrix::Volume;
use number::fixed_to_f32;

pub fn load_matrixx(c: Context, m: [i32; 16]) -> Reply
    ensures { Does (Call.matrix (MatrixCall.update (MatrixUpdate.load (map fixed m)))) c result.number result.context }
{
    c.load(m.map(fixed_to_f32))
}

pub fn mult_matrixx(c: Context, m: [i32; 16]) -> Reply
    ensures { Does (Call.matrix (MatrixCall.update (MatrixUpdate.mult (map fixed m)))) c result.number result.context }
{
    c.multiply(Ok(m.map(fixed_to_f32)))
}

pub fn translatex(c: Context, x: i32, y: i32, z: i32) -> Reply
    ensures { Does (Call.matrix (MatrixCall.update (MatrixUpdate.translate (fixed x) (fixed y) (fixed z)))) c result.number result.context }
{
    let m = matrix::translate(fixed_to_f32(x), fixed_to_f32(y), fixed_to_f32(z));
    c.multiply(Ok(m))
}

pub fn scalex(c: Context, x: i32, y: i32, z: i32) -> Reply
    ensures { Does (Call.matrix (MatrixCall.update (MatrixUpdate.scale (fixed x) (fixed y) (fixed z)))) c result.number result.context }
{
    let m = matrix::scale(fixed_to_f32(x), fixed_to_f32(y), fixed_to_f32(z));
    c.multiply(Ok(m))
}

pub fn frustumx(c: Context, l: i32, r: i32, b: i32, t: i32, n: i32, f: i32) -> Reply
    ensures { Does (Call.matrix (MatrixCall.update (MatrixUpdate.frustum (fixed l) (fixed r) (fixed b) (fixed t) (fixed n) (fixed f)))) c result.number result.context }
{
    let volume = Volume {
        left: fixed_to_f32(l),
        right: fixed_to_f32(r),
        bottom: fixed_to_f32(b),
        top: fixed_to_f32(t),
        near: fixed_to_f32(n),
        far: fixed_to_f32(f),
    };
    c.multiply(volume.check_frustum().and(Ok(volume.frustum())))
}

pub fn orthox(c: Context, l: i32, r: i32, b: i32, t: i32, n: i32, f: i32) -> Reply
    ensures { Does (Call.matrix (MatrixCall.update (MatrixUpdate.ortho (fixed l) (fixed r) (fixed b) (fixed t) (fixed n) (fixed f)))) c result.number result.context }
{
    let volume = Volume {
        left: fixed_to_f32(l),
        right: fixed_to_f32(r),
        bottom: fixed_to_f32(b),
        top: fixed_to_f32(t),
        near: fixed_to_f32(n),
        far: fixed_to_f32(f),
    };
    c.multiply(volume.check_ortho().and(Ok(volume.ortho())))
}

// The current colour.
pub fn set_colorx(c: Context, color: [i32; 4]) -> Reply
    ensures { Does (Call.attribute (AttributeCall.color (map fixed color))) c result.number result.context }
{
    gles_arrays::set_color(c, color.map(fixed_to_f32))
}
