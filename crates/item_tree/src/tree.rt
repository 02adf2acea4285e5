//! Trees, and the definitions in them (Component Model, binary format).

use comp_model::Space;
use comp_wire::{
    ComponentTypeRef, ComponentValType, ModuleArg, PrimitiveValType, Seq, WireCanon, WireEntity,
    WireFunc, WireVal,
};

/// The definitions of a component, or the declarations of a type, in order.
#[derive(Drop)]
#[cycle(trees)]
pub struct Tree<'a> {
    /// One for each definition.
    pub defs: Seq<Item<'a>>,
}

/// A definition of a component, or a declaration of a type. Each index is one of its space in the scope of the definition.
#[derive(Drop)]
#[cycle(trees)]
pub enum Item<'a> {
    /// The bytes of a core module.
    CoreModule(&'a [u8]),
    /// A core module instantiated with named core instances.
    CoreInstantiate {
        /// The index of the core module.
        module: u32,
        /// The names of the arguments, and the core instances.
        args: Seq<(&'a [u8], ModuleArg)>,
    },
    /// A core instance made of named core items.
    CoreBundle {
        /// The name of each, its space and its index.
        exports: Seq<(&'a [u8], Space, u32)>,
    },
    /// A core type.
    CoreType(ItemCoreType<'a>),
    /// A component in the component.
    Component(Tree<'a>),
    /// A component instantiated with named items.
    Instantiate {
        /// The index of the component.
        component: u32,
        /// The name of each, its space and its index.
        args: Seq<(&'a [u8], Space, u32)>,
    },
    /// An instance made of named items.
    Bundle {
        /// The name of each, its space and its index.
        exports: Seq<(&'a [u8], Space, u32)>,
    },
    /// An alias.
    Alias(ItemAlias<'a>),
    /// A type.
    Ty(ItemType<'a>),
    /// A canonical function.
    Canon(WireCanon),
    /// The call of a function when the component starts.
    Start {
        /// The index of the function.
        func: u32,
        /// The indices of the values that it is passed.
        args: Seq<u32>,
        /// How many values it gives.
        results: u32,
    },
    /// An import.
    Import {
        /// Its name.
        name: &'a [u8],
        /// What is imported.
        ty: ComponentTypeRef,
    },
    /// An export of a component.
    Export {
        /// Its name.
        name: &'a [u8],
        /// As what the item is exported, where that is said.
        ty: Option<ComponentTypeRef>,
        /// The space of the item.
        kind: Space,
        /// The index of the item.
        index: u32,
    },
    /// A custom section.
    Custom {
        /// Its name.
        name: &'a [u8],
        /// The bytes behind the name.
        payload: &'a [u8],
    },
    /// An export of a component or instance type.
    ExportDecl {
        /// Its name.
        name: &'a [u8],
        /// What is exported.
        ty: ComponentTypeRef,
    },
    /// An import of a module type.
    ModuleImport {
        /// The module that it is imported from.
        module: &'a [u8],
        /// Its name there.
        name: &'a [u8],
        /// What is imported.
        entity: WireEntity,
    },
    /// An export of a module type.
    ModuleExport {
        /// Its name.
        name: &'a [u8],
        /// What is exported.
        entity: WireEntity,
    },
}

/// A core type.
#[derive(Drop)]
#[cycle(trees)]
pub enum ItemCoreType<'a> {
    /// A function type.
    Func(WireFunc),
    /// Function types that may name each other.
    Rec(Seq<WireFunc>),
    /// The type of a core module.
    Module(Tree<'a>),
}

/// A type of a component.
#[derive(Drop)]
#[cycle(trees)]
pub enum ItemType<'a> {
    /// A primitive under a new index.
    Primitive(PrimitiveValType),
    /// Fields by name.
    Record(Seq<(&'a [u8], ComponentValType)>),
    /// Cases by name, some with a value.
    Variant(Seq<(&'a [u8], Option<ComponentValType>)>),
    /// Any number of elements.
    List(ComponentValType),
    /// A fixed number of elements.
    FixedLengthList(ComponentValType, u32),
    /// Fields by place.
    Tuple(Seq<ComponentValType>),
    /// A set of these names.
    Flags(Seq<&'a [u8]>),
    /// One of these names.
    Enum(Seq<&'a [u8]>),
    /// A value or none.
    Option(ComponentValType),
    /// What comes of a success and of a failure.
    Result(Option<ComponentValType>, Option<ComponentValType>),
    /// A handle that owns the resource of this index.
    Own(u32),
    /// A handle that borrows the resource of this index.
    Borrow(u32),
    /// Values that come one after the other.
    Stream(Option<ComponentValType>),
    /// A value that comes later.
    Future(Option<ComponentValType>),
    /// A function type.
    Func {
        /// Whether it is asynchronous.
        async_: bool,
        /// The names and types of the parameters.
        params: Seq<(&'a [u8], ComponentValType)>,
        /// The type of the result.
        result: Option<ComponentValType>,
    },
    /// The type of a component.
    Component(Tree<'a>),
    /// The type of an instance.
    Instance(Tree<'a>),
    /// A new resource.
    Resource {
        /// How it is represented.
        rep: WireVal,
        /// The index of the core function that destroys it.
        dtor: Option<u32>,
    },
}

/// An alias.
#[derive(Clone, Copy)]
pub enum ItemAlias<'a> {
    /// An export of an instance.
    InstanceExport {
        /// The index of the instance.
        instance: u32,
        /// The space of what is exported.
        kind: Space,
        /// The name of the export.
        name: &'a [u8],
    },
    /// An export of a core instance.
    CoreInstanceExport {
        /// The index of the core instance.
        instance: u32,
        /// The space of what is exported.
        kind: Space,
        /// The name of the export.
        name: &'a [u8],
    },
    /// An item of a scope around this one.
    Outer {
        /// How many scopes outward.
        count: u32,
        /// The space of the item.
        kind: Space,
        /// Its index there.
        index: u32,
    },
}
