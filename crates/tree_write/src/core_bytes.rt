//! The core modules of a component, whose bytes are there before the component is written.

ghost use Rattle.std.specs.Prelude.{◌≡◌};
ghost use Rattle.comp_model.specs.CoreModules.{CoreModule};
ghost use Rattle.core_model.specs.Module.{core_bytes};

/// A core module of a component, with its bytes (WebAssembly, binary format, Modules).
pub trait CoreBytes {
    /// The module.
    ghost core_module: { Self → CoreModule };

    /// Its bytes.
    fn bytes(&self) -> &[u8]
        ensures { result.now ≡ core_bytes (core_module self.now) };
}
