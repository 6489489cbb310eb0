//! Scopes of names.
ghost use Rattle.std.specs.Prelude.{◌≡◌, ◌++◌, ◌≤◌, length, map, flat_map, IfOk, OnOk};
ghost use Rattle.std.specs.Str.{bytes_eq};
ghost use Rattle.aig_names.specs.Header.{closings, shared, scope_line, moves};
ghost use Rattle.aig_names.specs.Names.{cut_at};
ghost use Rattle.aig_names.specs.Paths.{has_empty, scopes_of, leaf_of};

use aig_bytes::Memory;
use std::alloc::Global;

/// A name's pieces between dots: the scopes that it is in, and its own.
#[derive(Drop)]
pub struct Path<'a> {
    pub scopes: Vec<&'a [u8]>,
    pub leaf: &'a [u8],
}

// A name cut at its dots.
fn pieces_of(alloc: Global, name: &[u8]) -> Result<Vec<&[u8]>, Memory>
    ensures { IfOk result (λ pieces. map (λ piece. piece.now) pieces.items ≡ cut_at 46 name.now) }
{
    let mut pieces = Vec::new(alloc);
    let mut start = 0;
    for (place, byte) in name.iter().enumerate() {
        if *byte == b'.' {
            pieces.push(&name[start..place])?;
            start = place + 1;
        }
    }
    pieces.push(&name[start..])?;
    Ok(pieces)
}

// Whether one of these pieces of a name is empty. The list of its pieces, which takes memory for each dot, is not made
// for that.
fn has_empty_piece(name: &[u8]) -> bool
    ensures { result ≡ has_empty (cut_at 46 name.now) }
{
    let mut start = 0;
    for (place, byte) in name.iter().enumerate() {
        if *byte == b'.' {
            if place == start {
                return true;
            }
            start = place + 1;
        }
    }
    name[start..].is_empty()
}

impl<'a> Path<'a> {
    /// The path of a name. One with an empty piece is in no scope.
    pub fn of(alloc: Global, name: &'a [u8]) -> Result<Path<'a>, Memory>
        ensures scopes { IfOk result (λ path. map (λ scope. scope.now) path.scopes.items ≡ scopes_of name.now) }
        ensures leaf { IfOk result (λ path. path.leaf.now ≡ leaf_of name.now) }
    {
        if has_empty_piece(name) {
            return Ok(Path {
                scopes: Vec::new(alloc),
                leaf: name,
            });
        }
        let mut scopes = pieces_of(alloc, name)?;
        let leaf = scopes.pop().unwrap_or(name);
        Ok(Path { scopes, leaf })
    }
}

// Whether two scopes have one name.
fn are_same(a: &[u8], b: &[u8]) -> bool
    ensures { result ≡ bytes_eq a.now b.now }
{
    a == b
}

// How many of the first scopes are the same.
fn count_shared(opened: &[&[u8]], scopes: &[&[u8]]) -> usize
    ensures count { result ≡ shared (map (λ scope. scope.now) opened.now) (map (λ scope. scope.now) scopes.now) }
    ensures within { result ≤ length opened.now }
    ensures within_scopes { result ≤ length scopes.now }
{
    let most = opened.len().min(scopes.len());
    for place in 0..most {
        if !are_same(opened[place], scopes[place]) {
            return place;
        }
    }
    most
}

/// Adds the lines that close so many scopes.
pub fn push_closings(text: &mut Vec<u8>, count: usize) -> Result<(), Memory>
    ensures { OnOk result (text.new.items ≡ text.old.items ++ closings count) }
{
    for _closed in 0..count {
        text.extend_from_slice(b"$upscope $end\n")?;
    }
    Ok(())
}

/// Adds the line that opens a scope.
pub fn push_scope(text: &mut Vec<u8>, name: &[u8]) -> Result<(), Memory>
    ensures { OnOk result (text.new.items ≡ text.old.items ++ scope_line name.now) }
{
    text.extend_from_slice(b"$scope module ")?;
    text.extend_from_slice(name)?;
    text.extend_from_slice(b" $end\n")?;
    Ok(())
}

// Adds the lines that open scopes.
fn push_scopes(text: &mut Vec<u8>, scopes: &[&[u8]]) -> Result<(), Memory>
    ensures { OnOk result (text.new.items ≡ text.old.items
        ++ flat_map scope_line (map (λ scope. scope.now) scopes.now)) }
{
    for scope in scopes {
        push_scope(text, scope)?;
    }
    Ok(())
}

/// Adds the lines that lead from scopes that are open to others.
pub fn push_moves(text: &mut Vec<u8>, opened: &[&[u8]], scopes: &[&[u8]]) -> Result<(), Memory>
    ensures { OnOk result (text.new.items ≡ text.old.items ++ moves (map (λ scope. scope.now) opened.now)
        (map (λ scope. scope.now) scopes.now)) }
{
    let shared = count_shared(opened, scopes);
    push_closings(text, opened.len() - shared)?;
    push_scopes(text, &scopes[shared..])
}
