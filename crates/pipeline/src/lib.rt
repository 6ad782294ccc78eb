// The pipeline settings: the record, what it is at first, and one function for each call that sets a part of it.
#![tactic(auto)]

ghost use Rattle.std.specs.Prelude.{◌≡◌};
ghost use Rattle.refusal.specs.Refusals.{answer};
ghost use Rattle.refusal.specs.RefusalsCode.{answered};
ghost use Rattle.refusal.specs.EnumerantsCode.{found, Decodes};
ghost use Rattle.pipeline.specs.Enums.{compare_funcs, blend_factors, cull_modes, front_faces, fog_modes, tex_env_modes, capability_of, fog_parameters};
ghost use Rattle.pipeline.specs.Enums.{compare_code, blend_code, cull_code, face_code, fog_code, env_code};
ghost use Rattle.pipeline.specs.Pipeline.{fresh_unit, fresh_pipeline, pipeline_answered, active_unit, put_unit};
ghost use Rattle.pipeline.specs.Pipeline.{pipeline_step, active_texture, capability};
ghost use Rattle.pipeline.specs.Pipeline.{tex_env, tex_env_color, depth_func, depth_range, alpha_func, blend_func, cull_face, front_face, fog};

use refusal::{Refusal, UnknownEnum};

// What depth and alpha are compared by.
#[derive(Clone, Copy, Debug, PartialEq, Eq)]
pub enum CompareFunc {
    Never,
    Less,
    Equal,
    Lequal,
    Greater,
    Notequal,
    Gequal,
    Always,
}

#[derive(Clone, Copy, Debug, PartialEq, Eq)]
pub enum BlendFactor {
    Zero,
    One,
    SrcColor,
    OneMinusSrcColor,
    SrcAlpha,
    OneMinusSrcAlpha,
    DstAlpha,
    OneMinusDstAlpha,
    DstColor,
    OneMinusDstColor,
    SrcAlphaSaturate,
}

// Which faces are dropped.
#[derive(Clone, Copy, Debug, PartialEq, Eq)]
pub enum CullMode {
    Front,
    Back,
    FrontAndBack,
}

// The winding of a front face.
#[derive(Clone, Copy, Debug, PartialEq, Eq)]
pub enum FrontFace {
    Cw,
    Ccw,
}

#[derive(Clone, Copy, Debug, PartialEq, Eq)]
pub enum FogMode {
    Linear,
    Exp,
    Exp2,
}

// How a texture's colour is combined with the fragment's.
#[derive(Clone, Copy, Debug, PartialEq, Eq)]
pub enum TexEnvMode {
    Modulate,
    Replace,
    Decal,
    Blend,
    Add,
}

// What a capability number switches. Ignored ones are accepted and change nothing.
#[derive(Clone, Copy, Debug, PartialEq, Eq)]
pub enum Capability {
    DepthTest,
    AlphaTest,
    Blend,
    CullFace,
    Texture2D,
    Fog,
    Ignored,
}

// What a fog call sets.
#[derive(Clone, Copy, Debug, PartialEq, Eq)]
pub enum FogParameter {
    Mode,
    Density,
    Start,
    End,
}

#[derive(Clone, Copy)]
pub struct DepthState {
    pub test: bool,
    pub func: CompareFunc,
    pub near: f32,
    pub far: f32,
}

#[derive(Clone, Copy)]
pub struct AlphaState {
    pub test: bool,
    pub func: CompareFunc,
    pub reference: f32,
}

#[derive(Clone, Copy)]
pub struct BlendState {
    pub enabled: bool,
    pub src: BlendFactor,
    pub dst: BlendFactor,
}

// The face is kept while culling is off.
#[derive(Clone, Copy)]
pub struct CullState {
    pub enabled: bool,
    pub mode: CullMode,
}

#[derive(Clone, Copy)]
pub struct FogState {
    pub enabled: bool,
    pub mode: FogMode,
    pub density: f32,
    pub start: f32,
    pub end: f32,
}

#[derive(Clone, Copy)]
pub struct TextureUnit {
    pub enabled: bool,
    pub env_mode: TexEnvMode,
    pub env_color: [f32; 4],
}

#[derive(Clone, Copy)]
pub struct Pipeline {
    pub active_texture: u32,
    pub units: [TextureUnit; 4],
    pub depth: DepthState,
    pub alpha: AlphaState,
    pub blend: BlendState,
    pub cull: CullState,
    pub front_face: FrontFace,
    pub fog: FogState,
}

// ---- the choice that a number stands for

impl TryFrom<u32> for CompareFunc {
    type Error = UnknownEnum;

    ghost try_from_gives = { λ code r. Decodes compare_funcs code r };

    fn try_from(code: u32) -> Result<Self, UnknownEnum> {
        match code {
            0x0200 => Ok(CompareFunc::Never),
            0x0201 => Ok(CompareFunc::Less),
            0x0202 => Ok(CompareFunc::Equal),
            0x0203 => Ok(CompareFunc::Lequal),
            0x0204 => Ok(CompareFunc::Greater),
            0x0205 => Ok(CompareFunc::Notequal),
            0x0206 => Ok(CompareFunc::Gequal),
            0x0207 => Ok(CompareFunc::Always),
            _ => Err(UnknownEnum),
        }
    }
}

impl TryFrom<u32> for BlendFactor {
    type Error = UnknownEnum;

    ghost try_from_gives = { λ code r. Decodes blend_factors code r };

    fn try_from(code: u32) -> Result<Self, UnknownEnum> {
        match code {
            0 => Ok(BlendFactor::Zero),
            1 => Ok(BlendFactor::One),
            0x0300 => Ok(BlendFactor::SrcColor),
            0x0301 => Ok(BlendFactor::OneMinusSrcColor),
            0x0302 => Ok(BlendFactor::SrcAlpha),
            0x0303 => Ok(BlendFactor::OneMinusSrcAlpha),
            0x0304 => Ok(BlendFactor::DstAlpha),
            0x0305 => Ok(BlendFactor::OneMinusDstAlpha),
            0x0306 => Ok(BlendFactor::DstColor),
            0x0307 => Ok(BlendFactor::OneMinusDstColor),
            0x0308 => Ok(BlendFactor::SrcAlphaSaturate),
            _ => Err(UnknownEnum),
        }
    }
}

impl TryFrom<u32> for CullMode {
    type Error = UnknownEnum;

    ghost try_from_gives = { λ code r. Decodes cull_modes code r };

    fn try_from(code: u32) -> Result<Self, UnknownEnum> {
        match code {
            0x0404 => Ok(CullMode::Front),
            0x0405 => Ok(CullMode::Back),
            0x0408 => Ok(CullMode::FrontAndBack),
            _ => Err(UnknownEnum),
        }
    }
}

impl TryFrom<u32> for FrontFace {
    type Error = UnknownEnum;

    ghost try_from_gives = { λ code r. Decodes front_faces code r };

    fn try_from(code: u32) -> Result<Self, UnknownEnum> {
        match code {
            0x0900 => Ok(FrontFace::Cw),
            0x0901 => Ok(FrontFace::Ccw),
            _ => Err(UnknownEnum),
        }
    }
}

impl TryFrom<u32> for FogMode {
    type Error = UnknownEnum;

    ghost try_from_gives = { λ code r. Decodes fog_modes code r };

    fn try_from(code: u32) -> Result<Self, UnknownEnum> {
        match code {
            0x0800 => Ok(FogMode::Exp),
            0x0801 => Ok(FogMode::Exp2),
            0x2601 => Ok(FogMode::Linear),
            _ => Err(UnknownEnum),
        }
    }
}

impl TryFrom<u32> for TexEnvMode {
    type Error = UnknownEnum;

    ghost try_from_gives = { λ code r. Decodes tex_env_modes code r };

    fn try_from(code: u32) -> Result<Self, UnknownEnum> {
        match code {
            0x2100 => Ok(TexEnvMode::Modulate),
            0x1E01 => Ok(TexEnvMode::Replace),
            0x2101 => Ok(TexEnvMode::Decal),
            0x0BE2 => Ok(TexEnvMode::Blend),
            0x0104 => Ok(TexEnvMode::Add),
            0x8570 => Ok(TexEnvMode::Modulate),
            _ => Err(UnknownEnum),
        }
    }
}

impl TryFrom<u32> for FogParameter {
    type Error = UnknownEnum;

    ghost try_from_gives = { λ code r. Decodes fog_parameters code r };

    fn try_from(code: u32) -> Result<Self, UnknownEnum> {
        match code {
            0x0B62 => Ok(FogParameter::Density),
            0x0B63 => Ok(FogParameter::Start),
            0x0B64 => Ok(FogParameter::End),
            0x0B65 => Ok(FogParameter::Mode),
            _ => Err(UnknownEnum),
        }
    }
}

impl TryFrom<u32> for Capability {
    type Error = UnknownEnum;

    ghost try_from_gives = { λ code r. found r ≡ capability_of code };

    fn try_from(code: u32) -> Result<Self, UnknownEnum> {
        match code {
            0x0B71 => Ok(Capability::DepthTest),
            0x0BC0 => Ok(Capability::AlphaTest),
            0x0BE2 => Ok(Capability::Blend),
            0x0B44 => Ok(Capability::CullFace),
            0x0DE1 => Ok(Capability::Texture2D),
            0x0B60 => Ok(Capability::Fog),
            0x0C11 | 0x0B50 | 0x0BD0 | 0x0BA1 | 0x0B90 | 0x0B57 | 0x8037 => Ok(Capability::Ignored),
            0x4000..=0x400F => Ok(Capability::Ignored),
            _ => Err(UnknownEnum),
        }
    }
}

// ---- the number of a choice

impl From<CompareFunc> for u32 {
    ghost from_gives = { λ a code. code ≡ compare_code a };

    fn from(a: CompareFunc) -> u32 {
        match a {
            CompareFunc::Never => 0x0200,
            CompareFunc::Less => 0x0201,
            CompareFunc::Equal => 0x0202,
            CompareFunc::Lequal => 0x0203,
            CompareFunc::Greater => 0x0204,
            CompareFunc::Notequal => 0x0205,
            CompareFunc::Gequal => 0x0206,
            CompareFunc::Always => 0x0207,
        }
    }
}

impl From<BlendFactor> for u32 {
    ghost from_gives = { λ a code. code ≡ blend_code a };

    fn from(a: BlendFactor) -> u32 {
        match a {
            BlendFactor::Zero => 0,
            BlendFactor::One => 1,
            BlendFactor::SrcColor => 0x0300,
            BlendFactor::OneMinusSrcColor => 0x0301,
            BlendFactor::SrcAlpha => 0x0302,
            BlendFactor::OneMinusSrcAlpha => 0x0303,
            BlendFactor::DstAlpha => 0x0304,
            BlendFactor::OneMinusDstAlpha => 0x0305,
            BlendFactor::DstColor => 0x0306,
            BlendFactor::OneMinusDstColor => 0x0307,
            BlendFactor::SrcAlphaSaturate => 0x0308,
        }
    }
}

impl From<CullMode> for u32 {
    ghost from_gives = { λ a code. code ≡ cull_code a };

    fn from(a: CullMode) -> u32 {
        match a {
            CullMode::Front => 0x0404,
            CullMode::Back => 0x0405,
            CullMode::FrontAndBack => 0x0408,
        }
    }
}

impl From<FrontFace> for u32 {
    ghost from_gives = { λ a code. code ≡ face_code a };

    fn from(a: FrontFace) -> u32 {
        match a {
            FrontFace::Cw => 0x0900,
            FrontFace::Ccw => 0x0901,
        }
    }
}

impl From<FogMode> for u32 {
    ghost from_gives = { λ a code. code ≡ fog_code a };

    fn from(a: FogMode) -> u32 {
        match a {
            FogMode::Exp => 0x0800,
            FogMode::Exp2 => 0x0801,
            FogMode::Linear => 0x2601,
        }
    }
}

impl From<TexEnvMode> for u32 {
    ghost from_gives = { λ a code. code ≡ env_code a };

    fn from(a: TexEnvMode) -> u32 {
        match a {
            TexEnvMode::Modulate => 0x2100,
            TexEnvMode::Replace => 0x1E01,
            TexEnvMode::Decal => 0x2101,
            TexEnvMode::Blend => 0x0BE2,
            TexEnvMode::Add => 0x0104,
        }
    }
}

// ---- the settings

impl TextureUnit {
    // A unit at first.
    fn new() -> TextureUnit
        ensures { result ≡ fresh_unit }
    {
        TextureUnit {
            enabled: false,
            env_mode: TexEnvMode::Modulate,
            env_color: [0.0; 4],
        }
    }
}

#[tactic(auto, using(crate::proofs::Bind::at_none, crate::proofs::Bind::at_some), unfolding(crate::specs::Pipeline::pipeline_step, crate::specs::Pipeline::accepted_pipeline))]
impl Pipeline {
    // The settings at first.
    pub fn new() -> Pipeline
        ensures { result ≡ fresh_pipeline }
    {
        Pipeline {
            active_texture: 0,
            units: [TextureUnit::new(); 4],
            depth: DepthState {
                test: false,
                func: CompareFunc::Less,
                near: 0.0,
                far: 1.0,
            },
            alpha: AlphaState {
                test: false,
                func: CompareFunc::Always,
                reference: 0.0,
            },
            blend: BlendState {
                enabled: false,
                src: BlendFactor::One,
                dst: BlendFactor::Zero,
            },
            cull: CullState {
                enabled: false,
                mode: CullMode::Back,
            },
            front_face: FrontFace::Ccw,
            fog: FogState {
                enabled: false,
                mode: FogMode::Exp,
                density: 1.0,
                start: 0.0,
                end: 1.0,
            },
        }
    }

    // The unit that the calls on a texture unit go to.
    fn active_unit(&self) -> TextureUnit
        ensures { result ≡ active_unit self.now }
    {
        let i = self.active_texture as usize;
        if i < 4 {
            self.units[i]
        } else {
            TextureUnit::new()
        }
    }

    fn put_active_unit(&mut self, u: TextureUnit) -> Result<(), Refusal>
        ensures { answered result self.new ≡ pipeline_answered (put_unit u self.old) self.old }
    {
        let i = self.active_texture as usize;
        if i < 4 {
            self.units[i] = u;
            return Ok(());
        }
        Err(Refusal::InvalidEnum)
    }

    pub fn set_active_texture(&mut self, unit: u32) -> Result<(), Refusal>
        ensures { answered result self.new ≡ pipeline_step (active_texture unit) self.old }
    {
        if unit < 4 {
            self.active_texture = unit;
            return Ok(());
        }
        Err(Refusal::InvalidEnum)
    }

    pub fn set_capability(&mut self, cap: u32, on: bool) -> Result<(), Refusal>
        ensures { answered result self.new ≡ pipeline_step (capability cap on) self.old }
    {
        match Capability::try_from(cap)? {
            Capability::DepthTest => self.depth.test = on,
            Capability::AlphaTest => self.alpha.test = on,
            Capability::Blend => self.blend.enabled = on,
            Capability::CullFace => self.cull.enabled = on,
            Capability::Texture2D => {
                let mut u = self.active_unit();
                u.enabled = on;
                return self.put_active_unit(u);
            }
            Capability::Fog => self.fog.enabled = on,
            Capability::Ignored => {}
        }
        Ok(())
    }

    // With a pname other than TEXTURE_ENV_MODE nothing is done.
    pub fn tex_env(&mut self, pname: u32, value: u32) -> Result<(), Refusal>
        ensures { answered result self.new ≡ pipeline_step (tex_env pname value) self.old }
    {
        if pname != 0x2200 {
            return Ok(());
        }
        let mut u = self.active_unit();
        u.env_mode = TexEnvMode::try_from(value)?;
        self.put_active_unit(u)
    }

    pub fn set_tex_env_color(&mut self, color: [f32; 4]) -> Result<(), Refusal>
        ensures { answered result self.new ≡ pipeline_step (tex_env_color color) self.old }
    {
        let mut u = self.active_unit();
        u.env_color = color;
        self.put_active_unit(u)
    }

    pub fn set_depth_func(&mut self, func: u32) -> Result<(), Refusal>
        ensures { answered result self.new ≡ pipeline_step (depth_func func) self.old }
    {
        self.depth.func = CompareFunc::try_from(func)?;
        Ok(())
    }

    // Both ends are held within 0 to 1; a NaN stays.
    pub fn set_depth_range(&mut self, near: f32, far: f32)
        ensures { answer 0 self.new ≡ pipeline_step (depth_range near far) self.old }
    {
        self.depth.near = number::clamp_unit(near);
        self.depth.far = number::clamp_unit(far);
    }

    // The reference is held within 0 to 1; a NaN stays.
    pub fn set_alpha_func(&mut self, func: u32, reference: f32) -> Result<(), Refusal>
        ensures { answered result self.new ≡ pipeline_step (alpha_func func reference) self.old }
    {
        self.alpha.func = CompareFunc::try_from(func)?;
        self.alpha.reference = number::clamp_unit(reference);
        Ok(())
    }

    pub fn set_blend_func(&mut self, src: u32, dst: u32) -> Result<(), Refusal>
        ensures { answered result self.new ≡ pipeline_step (blend_func src dst) self.old }
    {
        let from = BlendFactor::try_from(src)?;
        let to = BlendFactor::try_from(dst)?;
        self.blend.src = from;
        self.blend.dst = to;
        Ok(())
    }

    // Only the capability switches culling on and off.
    pub fn set_cull_face(&mut self, mode: u32) -> Result<(), Refusal>
        ensures { answered result self.new ≡ pipeline_step (cull_face mode) self.old }
    {
        self.cull.mode = CullMode::try_from(mode)?;
        Ok(())
    }

    pub fn set_front_face(&mut self, mode: u32) -> Result<(), Refusal>
        ensures { answered result self.new ≡ pipeline_step (front_face mode) self.old }
    {
        self.front_face = FrontFace::try_from(mode)?;
        Ok(())
    }

    // The fog mode by the whole part of the value.
    pub fn set_fog(&mut self, pname: u32, value: f32) -> Result<(), Refusal>
        ensures { answered result self.new ≡ pipeline_step (fog pname value) self.old }
    {
        match FogParameter::try_from(pname)? {
            FogParameter::Mode => self.fog.mode = FogMode::try_from(number::whole_u32(value))?,
            FogParameter::Density => self.fog.density = value,
            FogParameter::Start => self.fog.start = value,
            FogParameter::End => self.fog.end = value,
        }
        Ok(())
    }
}
