//! Sessions by their tokens and by their ends, in two maps that always agree.
ghost use Rattle.std.specs.Prelude.{◌≡◌, length, IfOk, OnErr, OnOk, [], None, Some};
ghost use Rattle.std.specs.Option.{option_map, unwrap_or};
ghost use Rattle.uses.specs.Sessions.{Changes, Expires, IsFirst, end_of};

use art_operations::keys::{Escaped, Joined, Unsigned};
use art_operations::tree_map::TreeMap;
use std::alloc::{AllocError, Global};
use std::marker::Model;

/// Sessions. Each has a token, which is any string of bytes, and a time at which it ends.
///
/// An end is listed if and only if a session ends then, so that the sessions are found by their tokens and in the
/// order of their ends. A call that takes an allocator fails only if an allocation fails, and then no session has changed.
#[derive(Drop)]
pub struct Sessions {
    by_token: TreeMap<Escaped, u64, 16>,
    by_end: TreeMap<Joined<Unsigned<8>, Escaped>, (), 16>,
}

impl Model for Sessions {
    ghost use Rattle.std.specs.Prelude.{ℕ, List};
    ghost use Rattle.uses.specs.Sessions.{Agree};

    ghost Value = { List (List ℕ × ℕ) };

    ghost view = { λ sessions. sessions.by_token };

    ghost invariant = { λ sessions. Agree sessions.by_token sessions.by_end };
}

impl Sessions {
    /// Returns no sessions.
    pub fn new(alloc: Global) -> Self
        ensures { result ≡ [] }
    {
        Sessions {
            by_token: TreeMap::new(alloc),
            by_end: TreeMap::new(alloc),
        }
    }

    /// Returns the number of open sessions.
    pub fn len(&self) -> usize
        ensures { result ≡ length self.now }
    {
        self.by_token.len()
    }

    /// Returns when the session of a token ends, or `None` if it is closed.
    pub fn end_of(&self, token: &[u8]) -> Option<u64>
        ensures { result ≡ end_of token.now self.now }
    {
        self.by_token.get_text(token).copied()
    }

    /// Opens a session, unless it is open: then it is unchanged, and its end is returned.
    pub fn open(&mut self, alloc: Global, token: &[u8], end: u64) -> Result<Option<u64>, AllocError>
        ensures found { IfOk result (λ found. found ≡ end_of token.now self.old) }
        ensures opened { IfOk result (λ found.
            Changes token.now (Some (unwrap_or found end)) self.old self.new) }
        ensures kept { OnErr result (self.new ≡ self.old) }
    {
        let key = Escaped::encode(alloc, token)?;
        if let Some(found) = self.by_token.get(&key).copied() {
            return Ok(Some(found));
        }
        let end_key = key_of_end(alloc, &key, end)?;
        let Ok(_) = self
            .by_token
            .insert_both((key, end), &mut self.by_end, (end_key, ()))
        else {
            return Err(AllocError);
        };
        Ok(None)
    }

    /// Moves the end of a session, and returns its old end; `None` if it is closed.
    pub fn touch(
        &mut self,
        alloc: Global,
        token: &[u8],
        end: u64,
    ) -> Result<Option<u64>, AllocError>
        ensures found { IfOk result (λ before. before ≡ end_of token.now self.old) }
        ensures moved { IfOk result (λ before.
            Changes token.now (option_map (λ _. end) before) self.old self.new) }
        ensures kept { OnErr result (self.new ≡ self.old) }
    {
        let key = Escaped::encode(alloc, token)?;
        let Some(before) = self.by_token.get(&key).copied() else {
            return Ok(None);
        };
        if before == end {
            return Ok(Some(before));
        }
        let old_key = key_of_end(alloc, &key, before)?;
        let end_key = key_of_end(alloc, &key, end)?;
        let Ok(_) = self
            .by_token
            .insert_both((key, end), &mut self.by_end, (end_key, ()))
        else {
            return Err(AllocError);
        };
        self.by_end.remove(&old_key);
        Ok(Some(before))
    }

    /// Closes a session, and returns its end; `None` if it is closed.
    pub fn close(&mut self, alloc: Global, token: &[u8]) -> Result<Option<u64>, AllocError>
        ensures found { IfOk result (λ end. end ≡ end_of token.now self.old) }
        ensures closed { OnOk result (Changes token.now None self.old self.new) }
        ensures kept { OnErr result (self.new ≡ self.old) }
    {
        let key = Escaped::encode(alloc, token)?;
        self.close_key(alloc, &key)
    }

    /// Returns the token and the end of the session that ends first; `None` if all are closed.
    pub fn first(&self, alloc: Global) -> Result<Option<(Escaped, u64)>, AllocError>
        ensures { IfOk result (λ first. IsFirst first self.now) }
    {
        self.by_end.rises();
        let Some((key, _)) = self.by_end.first_key_value() else {
            return Ok(None);
        };
        let (end, token) = key.split(alloc)?;
        Ok(Some((token, end.get())))
    }

    /// Closes the session that ends first, if it ends up to a time, and returns its token and its end; `None` if all
    /// sessions end later.
    pub fn expire(&mut self, alloc: Global, now: u64) -> Result<Option<(Escaped, u64)>, AllocError>
        ensures expired { IfOk result (λ expired. Expires now expired self.old self.new) }
        ensures kept { OnErr result (self.new ≡ self.old) }
    {
        let Some((token, end)) = self.first(alloc)? else {
            return Ok(None);
        };
        if now < end {
            return Ok(None);
        }
        self.close_key(alloc, &token)?;
        Ok(Some((token, end)))
    }

    // Closes the session of a key, and returns its end.
    fn close_key(&mut self, alloc: Global, key: &Escaped) -> Result<Option<u64>, AllocError>
        ensures found { IfOk result (λ end. end ≡ end_of key.now self.old) }
        ensures closed { OnOk result (Changes key.now None self.old self.new) }
        ensures kept { OnErr result (self.new ≡ self.old) }
    {
        let Some(end) = self.by_token.get(key).copied() else {
            return Ok(None);
        };
        let end_key = key_of_end(alloc, key, end)?;
        self.by_token.remove(key);
        self.by_end.remove(&end_key);
        Ok(Some(end))
    }
}

// Returns the key of an end of a token.
fn key_of_end(
    alloc: Global,
    token: &Escaped,
    end: u64,
) -> Result<Joined<Unsigned<8>, Escaped>, AllocError>
    ensures { IfOk result (λ key. key ≡ (end, token.now)) }
{
    Joined::join(alloc, &Unsigned::from(end), token)
}
