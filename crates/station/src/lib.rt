// The context as a host of another language keeps it between calls: a record of numbers, lent to each call (specs/Kept.antt).
#![tactic(auto)]

ghost use Rattle.std.specs.Prelude.{◌≡◌, map};
ghost use Rattle.number.specs.Decides.{Decides};
ghost use Rattle.pipeline.specs.Pipeline.{fresh_pipeline};
ghost use Rattle.station.specs.Kept.{kept_unit, unit_from, kept_settings, settings_from, kept_of, context_from};
ghost use Rattle.station.specs.Boundary.{layout, FreshKept, Ran};
ghost use Rattle.station.specs.BoundaryCode.{IsOwnCode, UnitEncodes, PartsEncode, answer_in};

use arrays::{Arrays, Attributes};
use buffers::{Buffers, STORE_BYTES};
use context::{Context, MatrixMode, Stacks};
use pipeline::{
    AlphaState, BlendFactor, BlendState, CompareFunc, CullMode, CullState, DepthState, FogMode,
    FogState, FrontFace, Pipeline, TexEnvMode, TextureUnit,
};
use refusal::{Refusal, UnknownEnum};

// The version of the boundary, and how many bytes its structs have.
pub const VERSION: u32 = 1;

pub const CONTEXT_BYTES: u32 = 3640;

pub const REPLY_BYTES: u32 = 24;

// The number of a list with words that are no record.
pub const NO_RECORD: u32 = 23;

#[repr(C)]
#[derive(Clone, Copy)]
pub struct KeptUnit {
    pub enabled: bool,
    pub env_mode: u32,
    pub env_color: [f32; 4],
}

// The settings, each choice as its enumerant.
#[repr(C)]
#[derive(Clone, Copy)]
pub struct KeptSettings {
    pub active_texture: u32,
    pub units: [KeptUnit; 4],
    pub depth_test: bool,
    pub depth_func: u32,
    pub near: f32,
    pub far: f32,
    pub alpha_test: bool,
    pub alpha_func: u32,
    pub reference: f32,
    pub blend: bool,
    pub src: u32,
    pub dst: u32,
    pub cull: bool,
    pub cull_mode: u32,
    pub front_face: u32,
    pub fog: bool,
    pub fog_mode: u32,
    pub density: f32,
    pub start: f32,
    pub end: f32,
}

#[repr(C)]
#[derive(Clone, Copy)]
pub struct Kept {
    pub stacks: Stacks,
    pub buffers: Buffers,
    pub arrays: Arrays,
    pub attributes: Attributes,
    pub settings: KeptSettings,
    pub error: u32,
    pub mode: u32,
}

// ---- the settings, each choice as its enumerant; one that stands for none is taken as the first of its table

impl From<TextureUnit> for KeptUnit {
    ghost from_gives = { λ u k. k ≡ kept_unit u };

    fn from(u: TextureUnit) -> KeptUnit {
        let env_color = u.env_color;
        KeptUnit {
            enabled: u.enabled,
            env_mode: u32::from(u.env_mode),
            env_color,
        }
    }
}

impl From<KeptUnit> for TextureUnit {
    ghost from_gives = { λ k u. u ≡ unit_from k };

    fn from(k: KeptUnit) -> TextureUnit {
        let env_color = k.env_color;
        TextureUnit {
            enabled: k.enabled,
            env_mode: TexEnvMode::try_from(k.env_mode).unwrap_or(TexEnvMode::Modulate),
            env_color,
        }
    }
}

#[tactic(auto, unfolding(crate::specs::Kept::kept_settings))]
impl From<Pipeline> for KeptSettings {
    ghost from_gives = { λ p k. k ≡ kept_settings p };

    fn from(p: Pipeline) -> KeptSettings {
        let units = p.units.map(|u| KeptUnit::from(u));
        KeptSettings {
            active_texture: p.active_texture,
            units,
            depth_test: p.depth.test,
            depth_func: u32::from(p.depth.func),
            near: p.depth.near,
            far: p.depth.far,
            alpha_test: p.alpha.test,
            alpha_func: u32::from(p.alpha.func),
            reference: p.alpha.reference,
            blend: p.blend.enabled,
            src: u32::from(p.blend.src),
            dst: u32::from(p.blend.dst),
            cull: p.cull.enabled,
            cull_mode: u32::from(p.cull.mode),
            front_face: u32::from(p.front_face),
            fog: p.fog.enabled,
            fog_mode: u32::from(p.fog.mode),
            density: p.fog.density,
            start: p.fog.start,
            end: p.fog.end,
        }
    }
}

impl From<KeptSettings> for Pipeline {
    ghost from_gives = { λ k p. p ≡ settings_from k };

    fn from(k: KeptSettings) -> Pipeline {
        let units = k.units.map(|u| TextureUnit::from(u));
        Pipeline {
            active_texture: k.active_texture,
            units,
            depth: DepthState {
                test: k.depth_test,
                func: CompareFunc::try_from(k.depth_func).unwrap_or(CompareFunc::Never),
                near: k.near,
                far: k.far,
            },
            alpha: AlphaState {
                test: k.alpha_test,
                func: CompareFunc::try_from(k.alpha_func).unwrap_or(CompareFunc::Never),
                reference: k.reference,
            },
            blend: BlendState {
                enabled: k.blend,
                src: BlendFactor::try_from(k.src).unwrap_or(BlendFactor::Zero),
                dst: BlendFactor::try_from(k.dst).unwrap_or(BlendFactor::Zero),
            },
            cull: CullState {
                enabled: k.cull,
                mode: CullMode::try_from(k.cull_mode).unwrap_or(CullMode::Front),
            },
            front_face: FrontFace::try_from(k.front_face).unwrap_or(FrontFace::Cw),
            fog: FogState {
                enabled: k.fog,
                mode: FogMode::try_from(k.fog_mode).unwrap_or(FogMode::Exp),
                density: k.density,
                start: k.start,
                end: k.end,
            },
        }
    }
}

// ---- the context

impl From<Context> for Kept {
    ghost from_gives = { λ c k. k ≡ kept_of c };

    fn from(c: Context) -> Kept {
        Kept {
            mode: u32::from(c.mode),
            stacks: c.stacks,
            buffers: c.buffers,
            arrays: c.arrays,
            attributes: c.attributes,
            settings: KeptSettings::from(c.pipeline),
            error: c.error,
        }
    }
}

impl From<Kept> for Context {
    ghost from_gives = { λ k c. c ≡ context_from k };

    fn from(k: Kept) -> Context {
        Context {
            mode: MatrixMode::try_from(k.mode).unwrap_or(MatrixMode::Modelview),
            stacks: k.stacks,
            buffers: k.buffers,
            arrays: k.arrays,
            attributes: k.attributes,
            pipeline: Pipeline::from(k.settings),
            error: k.error,
        }
    }
}

// ---- whether the numbers are those of a context

// Whether the number is a choice's own: COMBINE, which is kept as MODULATE, is not.
fn is_enumerant<T: Copy + TryFrom<u32, Error = UnknownEnum>>(code: u32) -> bool
where
    u32: From<T>,
    ensures { IsOwnCode T.try_from_gives ⟦<u32 as From<T>>⟧.from_gives code result }
{
    match T::try_from(code) {
        Ok(a) => u32::from(a) == code,
        Err(_) => false,
    }
}

fn is_unit(u: &KeptUnit) -> bool
    ensures { Decides (UnitEncodes u.now) result }
{
    is_enumerant::<TexEnvMode>(u.env_mode)
}

fn are_units(us: [KeptUnit; 4]) -> bool
    ensures { Decides (map kept_unit (map unit_from us) ≡ us) result }
{
    us.iter().all(|u| is_unit(u))
}

// Question by question: one chain of && is no plainer, and each of its two answers would have to split all of its cases.
fn are_settings(k: KeptSettings) -> bool
    ensures { Decides (kept_settings (settings_from k) ≡ k) result }
{
    if !is_enumerant::<CompareFunc>(k.depth_func) {
        return false;
    }
    if !is_enumerant::<CompareFunc>(k.alpha_func) {
        return false;
    }
    if !is_enumerant::<BlendFactor>(k.src) {
        return false;
    }
    if !is_enumerant::<BlendFactor>(k.dst) {
        return false;
    }
    if !is_enumerant::<CullMode>(k.cull_mode) {
        return false;
    }
    if !is_enumerant::<FrontFace>(k.front_face) {
        return false;
    }
    if !is_enumerant::<FogMode>(k.fog_mode) {
        return false;
    }
    are_units(k.units)
}

// Only mode and settings are asked: the rest of a kept context would be copied for the question.
fn is_context(mode: u32, settings: KeptSettings) -> bool
    ensures { Decides (PartsEncode mode settings) result }
{
    is_enumerant::<MatrixMode>(mode) && are_settings(settings)
}

// ---- the calls

// What a list of calls answers besides the context: number and value of its last call, and how many calls were made.
#[repr(C)]
#[derive(Clone, Copy)]
pub struct StationReply {
    pub number: u32,
    pub value: usize,
    pub made: usize,
}

// The same with the context after it.
#[derive(Clone, Copy)]
pub struct KeptReply {
    pub reply: StationReply,
    pub kept: Kept,
}

// Number and value of a list: those of its last call where it was read whole.
fn answer_in(whole: bool, number: u32, value: usize, made: usize) -> StationReply
    ensures { result ≡ answer_in whole number value made }
{
    let (number, value) = if whole {
        (number, value)
    } else {
        (NO_RECORD, 0)
    };
    StationReply {
        number,
        value,
        made,
    }
}

// ---- the C boundary

// What both sides of the boundary must agree on: its version, and the bytes of a kept context, of a reply and of a store.
#[repr(C)]
#[derive(Clone, Copy)]
pub struct Layout {
    pub version: u32,
    pub context: u32,
    pub reply: u32,
    pub store: u32,
}

#[unsafe(no_mangle)]
pub extern "C" fn beonasul_layout() -> Layout
    ensures { result ≡ layout }
{
    Layout {
        version: VERSION,
        context: CONTEXT_BYTES,
        reply: REPLY_BYTES,
        store: STORE_BYTES as u32,
    }
}

// The settings of a fresh context.
fn fresh_settings() -> KeptSettings
    ensures { result ≡ kept_settings fresh_pipeline }
{
    let unit = KeptUnit {
        enabled: false,
        env_mode: 0x2100,
        env_color: [0.0; 4],
    };
    KeptSettings {
        active_texture: 0,
        units: [unit; 4],
        depth_test: false,
        depth_func: 0x0201,
        near: 0.0,
        far: 1.0,
        alpha_test: false,
        alpha_func: 0x0207,
        reference: 0.0,
        blend: false,
        src: 1,
        dst: 0,
        cull: false,
        cull_mode: 0x0405,
        front_face: 0x0901,
        fog: false,
        fog_mode: 0x0800,
        density: 1.0,
        start: 0.0,
        end: 1.0,
    }
}

// A fresh context. Its numbers are written out: with one use of each conversion in the library LLVM inlines them into `beonasul_run`, whose call then
// costs 375 ns in place of 500.
#[unsafe(no_mangle)]
pub extern "C" fn beonasul_fresh() -> Kept
    ensures { FreshKept result }
{
    let c = Context::new();
    Kept {
        mode: 0x1700,
        stacks: c.stacks,
        buffers: c.buffers,
        arrays: c.arrays,
        attributes: c.attributes,
        settings: fresh_settings(),
        error: 0,
    }
}

// The calls of a list on the kept context. Its parts are copied one by one, since `Context::from(*kept)` copies it once more: so a thread of 64 KB has room.
#[unsafe(no_mangle)]
pub extern "C" fn beonasul_run(
    kept: &mut Kept,
    store: &mut [u8],
    words: &[u32],
    bytes: &[u8],
    out: &mut [f32],
) -> StationReply
    ensures { Ran kept.old store.old words.now bytes.now out.old result kept.new store.new
        out.new }
{
    if !is_context(kept.mode, kept.settings) {
        return StationReply {
            number: u32::from(Refusal::Invalid),
            value: 0,
            made: 0,
        };
    }
    let c = Context {
        mode: MatrixMode::try_from(kept.mode).unwrap_or(MatrixMode::Modelview),
        stacks: kept.stacks,
        buffers: kept.buffers,
        arrays: kept.arrays,
        attributes: kept.attributes,
        pipeline: Pipeline::from(kept.settings),
        error: kept.error,
    };
    let r = list_runner::run_on(c, words, bytes, &mut store[..], &mut out[..]);
    *kept = Kept {
        mode: u32::from(r.context.mode),
        stacks: r.context.stacks,
        buffers: r.context.buffers,
        arrays: r.context.arrays,
        attributes: r.context.attributes,
        settings: KeptSettings::from(r.context.pipeline),
        error: r.context.error,
    };
    answer_in(r.read == words.len(), r.number, r.value, r.made)
}

// Makes the calls of a list, with the context by value.
pub fn run(mut k: Kept, store: &mut [u8], words: &[u32], bytes: &[u8], out: &mut [f32]) -> KeptReply
    ensures { Ran k store.old words.now bytes.now out.old result.reply result.kept store.new out.new }
{
    let reply = beonasul_run(&mut k, store, words, bytes, out);
    KeptReply { reply, kept: k }
}
