//! Spaces of names by hand: generated ids, references that are kept or changed, and the names in a core type.

use core_encode::{Namespace, ResolveCoreType};
use core_syntax::{FunctionType, HeapType, Param, RefType, Type, TypeDef, ValType};
use std::alloc::{AllocError, Global};
use std::test::Fail;
use wast_parser::{Error, ErrorKind, Gensym, Id, Index, Span};

const HERE: Span = Span { offset: 3 };

const THERE: Span = Span { offset: 40 };

#[test]
fn generated_ids(rt: HostRuntime) -> Result<(), Fail> {
    let mut names = Namespace::new(rt.alloc());
    let mut symbols = Gensym::new();
    let first = symbols.generate(HERE);
    let second = symbols.generate(HERE);
    assert!(rt; names.register(Some(Id::new("", HERE))) == Ok(0));
    assert!(rt; names.register(Some(first)) == Ok(1));
    assert!(rt; names.register(Some(second)) == Ok(2));
    assert!(rt;
        names.register(Some(first))
            == Err(Error {
                kind: ErrorKind::Duplicate,
                offset: 3
            })
    );
    assert!(rt; names.try_resolve(&Index::Id(second)) == Some(2));
    assert!(rt; names.try_resolve(&Index::Id(Id::new("", THERE))) == Some(0));
    Ok(())
}

#[test]
fn references(rt: HostRuntime) -> Result<(), Fail> {
    let mut names = Namespace::new(rt.alloc());
    assert!(rt; names.register(None) == Ok(0));
    assert!(rt; names.register(Some(Id::new("x", HERE))) == Ok(1));
    let mut known = Index::Id(Id::new("x", THERE));
    assert!(rt; names.resolve(&mut known) == Ok(1));
    assert!(rt; known == Index::Num(1, THERE));
    assert!(rt; known.span() == THERE);
    let mut numeral = Index::Num(70, THERE);
    assert!(rt; names.resolve(&mut numeral) == Ok(70));
    assert!(rt; numeral == Index::Num(70, THERE));
    let mut unknown = Index::Id(Id::new("y", THERE));
    assert!(rt;
        names.resolve(&mut unknown)
            == Err(Error {
                kind: ErrorKind::Unknown,
                offset: 40
            })
    );
    assert!(rt; unknown == Index::Id(Id::new("y", THERE)));
    assert!(rt; names.try_resolve(&unknown).is_none());
    Ok(())
}

/// The types of a module.
#[derive(Drop)]
struct Types<'a> {
    names: Namespace<'a>,
}

impl<'a> ResolveCoreType<'a> for Types<'a> {
    ghost type_ids = { λ t. t.names };

    fn resolve_type_name(&mut self, name: &mut Index<'a>) -> Result<u32, Error> {
        self.names.resolve(name)
    }
}

/// Types `$t` and `$u`.
fn two_types(alloc: Global) -> Result<Types<'static>, Error> {
    let mut names = Namespace::new(alloc);
    names.register(Some(Id::new("t", HERE)))?;
    names.register(Some(Id::new("u", HERE)))?;
    Ok(Types { names })
}

/// A nullable reference to a type.
fn reference_to(index: Index<'static>) -> ValType<'static> {
    ValType::Ref(RefType {
        nullable: true,
        heap: HeapType::Concrete(index),
    })
}

/// `(type (func (param (ref null $u)) (result i32 (ref null LAST))))`
fn function(alloc: Global, last: &'static str) -> Result<Type<'static>, AllocError> {
    let mut params = Vec::new(alloc);
    params.push(Param {
        id: None,
        name: None,
        ty: reference_to(Index::Id(Id::new("u", HERE))),
    })?;
    let mut results = Vec::new(alloc);
    results.push(ValType::I32)?;
    results.push(reference_to(Index::Id(Id::new(last, THERE))))?;
    Ok(Type {
        span: HERE,
        id: None,
        name: None,
        def: TypeDef::Func(FunctionType { params, results }),
    })
}

#[test]
fn names_in_a_type(rt: HostRuntime) -> Result<(), Fail> {
    let mut types = two_types(rt.alloc())?;
    let mut ty = function(rt.alloc(), "t")?;
    assert!(rt; types.resolve_type(&mut ty).is_ok());
    match &ty.def {
        TypeDef::Func(function) => {
            assert!(rt; function.params.len() == 1);
            assert!(rt; function.params[0].ty == reference_to(Index::Num(1, HERE)));
            assert!(rt; function.results.len() == 2);
            assert!(rt; function.results[0] == ValType::I32);
            assert!(rt; function.results[1] == reference_to(Index::Num(0, THERE)));
        }
        TypeDef::Other(_) => assert!(rt; false),
    }
    Ok(())
}

#[test]
fn unknown_name_in_a_type(rt: HostRuntime) -> Result<(), Fail> {
    let mut types = two_types(rt.alloc())?;
    let mut ty = function(rt.alloc(), "w")?;
    let refusal = types.resolve_type(&mut ty);
    assert!(rt;
        refusal
            == Err(Error {
                kind: ErrorKind::Unknown,
                offset: 40
            })
    );
    Ok(())
}
