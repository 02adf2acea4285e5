//! Rules of the text format as data: what is read, and what it leaves.
//!
//! A rule is lent for good from a table. Most formers name one token, or what is made of a part, and hold the rest behind it, so that a reader goes
//! on in a loop. Words and other classes of tokens stand by their numbers in `token_codes`.

use comp_model::{Row, ScopeKind, Space};

/// The rows that stand in rules by their names.
#[derive(Clone, Copy)]
pub enum RowName {
    /// A value type.
    Val,
    /// A field of a component.
    ComponentItem,
    /// A declaration of the type of a component.
    ComponentTypeItem,
    /// A declaration of the type of an instance.
    InstanceTypeItem,
    /// A declaration of the type of a core module.
    ModuleTypeItem,
    /// What stands behind the parenthesis of `core func`.
    CoreFunc,
    /// What stands behind the parenthesis of `canon`.
    Canon,
    /// An option of a canonical function.
    CanonicalOption,
    /// The definition of a type.
    TypeDefinition,
    /// What an import or an export is of, with its names.
    Signature,
    /// The same without names.
    NamelessSignature,
    /// A core value type.
    CoreValue,
    /// The definition of a core type in its parentheses.
    CoreTypeDefinition,
}

/// Rules that stand in others by their names.
#[derive(Clone, Copy)]
pub enum Part {
    /// The definition of a core type behind `core type`.
    CoreType,
    /// A group of core types.
    CoreRec,
    /// The parameters and results of a core function.
    CoreFunction,
    /// What an import or an export of a core module is of.
    CoreSignature,
    /// The definition of a type among declarations.
    TypeDeclaration,
    /// An alias.
    Alias,
    /// An import.
    Import,
    /// An export among declarations.
    ExportedType,
    /// An export.
    Export,
    /// A resource type.
    Resource,
    /// A reference to an item, with its kind.
    Item,
    /// A core instance.
    CoreInstance,
    /// An instance.
    Instance,
    /// A function.
    Func,
    /// A core module.
    CoreModule,
    /// A component in a component.
    InnerComponent,
    /// The definition of a type.
    Type,
    /// A start function.
    Start,
    /// A custom section.
    Custom,
    /// A `producers` section.
    Producers,
    /// A reference to a type.
    TypeOf,
    /// A type and options.
    TypeAndOptions,
    /// A type, and whether the built-in is asynchronous.
    TypeAndAsync,
    /// A function and options.
    FuncAndOptions,
    /// A result and options.
    ResultAndOptions,
    /// A core value type and a number.
    Context,
    /// A core type and a table.
    CoreTypeAndTable,
    /// A memory.
    Memory,
}

/// Choices of which one rule is taken at once, by the number of the next token or of that behind it.
#[derive(Clone, Copy)]
pub enum Choice {
    /// What stands in the parentheses of a value type.
    NonPrim,
    /// A built-in.
    BuiltIn,
    /// What stands in the parentheses of a field of a component.
    Field,
    /// What stands in the parentheses of a declaration of the type of a component.
    ComponentDeclaration,
    /// What stands in the parentheses of a declaration of the type of an instance.
    InstanceDeclaration,
}

/// Keywords that end in `ref`.
#[derive(Clone, Copy)]
pub enum Ending {
    /// All of them.
    Reference,
    /// All but `funcref` and `externref`.
    OtherReference,
}

/// A test of the next tokens, by the numbers of their classes.
#[derive(Clone, Copy)]
pub enum Test<'r> {
    /// The next is of the class with this number.
    Next(u8),
    /// The next is of a class from the first number to the last.
    Range(u8, u8),
    /// The next is of one of these classes.
    Among(&'r [u8]),
    /// The next two are of these classes.
    Both(u8, u8),
    /// A parenthesis is next, and behind it a token of this class.
    Group(u8),
    /// A parenthesis is next, and behind it a token of a class from the first number to the last.
    GroupRange(u8, u8),
    /// The group goes on: next is neither `)` nor the end of the text.
    Going,
    /// One of two.
    Or(&'r Test<'r>, &'r Test<'r>),
    /// The next is a keyword with this end.
    Ending(Ending),
    /// References are read in their older forms too.
    Legacy,
    /// The next tokens are of these classes, one behind the other: the next, that behind it, and the rest.
    Form(&'r [u8], &'r [u8], &'r [&'r [u8]]),
}

/// A core value type that is spelled without an index.
#[derive(Clone, Copy)]
pub enum CoreType {
    /// `i32`.
    I32,
    /// `i64`.
    I64,
    /// `f32`.
    F32,
    /// `f64`.
    F64,
    /// `v128`.
    V128,
    /// A reference to a function, which is nullable or not.
    RefFunc(bool),
    /// A reference to a value of the host, which is nullable or not.
    RefExtern(bool),
    /// Another type, which is read and never written.
    Other,
}

/// What stands for no token.
#[derive(Clone, Copy)]
pub enum Add {
    /// A number.
    Number(u32),
    /// A core value type.
    CoreValue(CoreType),
    /// A kind of item.
    Kind(Space),
    /// An optional part that is missing.
    NoPart,
    /// The id of a case that isn't written.
    NoCaseId,
    /// The id of one of several parts that isn't written.
    NoId,
    /// The label of one of several parts that isn't written.
    NoLabel,
}

/// A token that is kept, and as what.
#[derive(Clone, Copy)]
pub enum Keep {
    /// A text.
    Text,
    /// A string that isn't UTF-8, as a text.
    Bytes,
    /// A number.
    Count,
    /// The id of a definition.
    Id,
    /// The id of a case.
    CaseId,
    /// The label of a definition.
    Label,
    /// The name of an inline export.
    Export,
}

/// How far the name of an index is looked for.
#[derive(Clone, Copy)]
pub enum Reach {
    /// Outward from the innermost scope.
    Outward,
    /// In the innermost scope alone.
    Own,
}

/// A table of words with a number for each.
#[derive(Clone, Copy)]
pub enum Told {
    /// The primitive types, with their bytes.
    Primitive,
    /// The fields of a `producers` section, from 0 on.
    Producer,
}

/// A token that is told by more than its class, and isn't kept.
#[derive(Clone, Copy)]
pub enum Silent {
    /// The word of a reference type that is read and never written.
    OtherReference,
    /// The word of a core type that is read and never written.
    OtherType,
    /// The word of limits that are read and never written.
    OtherLimits,
}

/// A part that is read by a row of its own.
#[derive(Clone, Copy)]
pub enum Outside {
    /// The name of an import or an export, with its attributes.
    ExternName,
    /// The name of an inline import.
    PlainName,
    /// The fields of a core module.
    CoreFields,
    /// The fields of a core module that is not in a group.
    SomeCoreFields,
}

/// A step that reads one part.
#[derive(Clone, Copy)]
pub enum Step {
    /// A token that is kept.
    Keep(Keep),
    /// An index into a space.
    Reference(Space, Reach),
    /// The word of a table.
    Told(Told),
    /// A token that isn't kept.
    Silent(Silent),
    /// A part with a row of its own.
    Outside(Outside),
}

/// The names of exports that may follow an index.
#[derive(Clone, Copy)]
pub enum Steps {
    /// Any number.
    Many,
    /// At most one.
    One,
    /// At most one where older forms are read, or else none.
    Legacy,
}

/// What is made of all that a part leaves.
#[derive(Clone, Copy)]
pub enum Wrap {
    /// A node as an entry of a list, with the row that the part leaves.
    Entry,
    /// The last leaf in front of the one before it.
    Swapped,
    /// The last leaf in front of all others.
    LastFirst,
    /// Two references and the kind of an outer alias, as it holds them.
    Outer,
    /// Nothing.
    Dropped,
    /// A reference as a core value type, which is nullable or not.
    Heap(bool),
    /// The ids so far as a leaf; they stay.
    Results,
    /// Texts as one.
    Joined,
    /// Entries in so many lists, by the number that is the first leaf of each, which goes.
    ByNumber(usize),
    /// Of parts with the row of what is read and never written, the row alone.
    OtherAlone,
}

/// A rule.
#[derive(Clone, Copy)]
pub enum Rule<'r> {
    /// No token.
    End,
    /// No token, and what stands for none.
    Adds(Add),
    /// The rest, and behind it what stands for no token.
    Also(&'r Rule<'r>, Add),
    /// The row of the node that holds what the rest leaves.
    Of(Row, &'r Rule<'r>),
    /// A token of the class with this number that isn't kept, then the rest.
    Word(u8, &'r Rule<'r>),
    /// The same; where the flag is set, its offset is that of the definition.
    Placed(bool, u8, &'r Rule<'r>),
    /// A token that is kept, then the rest.
    Keep(Keep, &'r Rule<'r>),
    /// An index into a space, then the rest.
    Reference(Space, Reach, &'r Rule<'r>),
    /// The word of a table, then the rest.
    Told(Told, &'r Rule<'r>),
    /// A part with a row of its own, then the rest.
    Outside(Outside, &'r Rule<'r>),
    /// One part, and no rest.
    Alone(Step),
    /// An index into a space, which looks outward, and the names of exports behind it.
    Path(Space, Steps),
    /// The id and the label of a definition, if they are written, then the rest.
    Named(&'r Rule<'r>),
    /// One behind the other.
    Then(&'r Rule<'r>, &'r Rule<'r>),
    /// The first where the test holds, or else the second.
    Either(&'r Test<'r>, &'r Rule<'r>, &'r Rule<'r>),
    /// The same with a test of more than one token, as the format says in words.
    ByTest(&'r Test<'r>, &'r Rule<'r>, &'r Rule<'r>),
    /// One of several, with its number.
    Case(usize, &'r Test<'r>, &'r Rule<'r>, &'r Rule<'r>),
    /// No case is left.
    NoCase,
    /// One of many, by its name.
    Choice(Choice),
    /// As many as begin where the test holds.
    Many(&'r Test<'r>, &'r Rule<'r>),
    /// The same with a test of more than one token, then the rest.
    ManyBy(&'r Test<'r>, &'r Rule<'r>, &'r Rule<'r>),
    /// The rest in parentheses.
    Group(&'r Rule<'r>),
    /// The rest in the group of the annotation with this number.
    Noted(u8, &'r Rule<'r>),
    /// The rest, then `)`.
    Closes(&'r Rule<'r>),
    /// The rest, and the offset of its first token as that of the definition.
    Marks(&'r Rule<'r>),
    /// What may not stand below more than 100 open parentheses.
    Checked(&'r Rule<'r>),
    /// A row by its name.
    Row(RowName),
    /// A rule by its name.
    Use(Part),
    /// The rest, then all that is left of the group, unread.
    Skipping(&'r Rule<'r>),
    /// As many entries as begin where the test holds, as one leaf.
    List(&'r Test<'r>, &'r Rule<'r>),
    /// A node of this row as an entry of a list.
    Entry(Row, &'r Rule<'r>),
    /// A reference in whose place the node stands that the rest leaves.
    Inline(Space, &'r Rule<'r>),
    /// The same with the node's row.
    InlineOf(Space, Row, &'r Rule<'r>),
    /// A reference in whose place a node of this row stands, as a list of exports.
    Bundle(Space, Row, &'r Rule<'r>),
    /// A node as a leaf.
    Node(&'r Rule<'r>),
    /// The same with the node's row.
    NodeOf(Row, &'r Rule<'r>),
    /// An optional part that is there.
    Part(&'r Rule<'r>),
    /// A definition.
    Def(&'r Rule<'r>),
    /// The same with the row of its node.
    DefOf(Row, &'r Rule<'r>),
    /// The definitions of a scope.
    Scope(ScopeKind, &'r Rule<'r>),
    /// The rest, of which something else is made.
    Wraps(Wrap, &'r Rule<'r>),
}
