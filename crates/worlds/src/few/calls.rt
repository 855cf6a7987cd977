ghost use Rattle.std.specs.Prelude.{◌≡◌, [], ◌∷◌, ◌++◌, length, if◌then◌else◌, nat_lt, Ok, Err};
ghost use Rattle.worlds.specs.Meaning.{listed};

use crate::few::Few;

impl<T: Copy, const N: usize> Few<T, N> {
    // The list without elements; `filler` stands in the unused places.
    pub fn none(filler: T) -> Self
        ensures { listed result ≡ [] }
    {
        Few {
            items: [filler; N],
            len: 0,
        }
    }

    pub fn len(&self) -> usize
        ensures { result ≡ length (listed self.now) }
    {
        self.as_slice().len()
    }

    pub fn as_slice(&self) -> &[T]
        ensures { result.now ≡ listed self.now }
    {
        let all = &self.items[..];
        &all[0..self.len]
    }

    // Appends; where the list has N elements, it is left as it was, and the element is handed back.
    pub fn push(&mut self, x: T) -> Result<(), T>
        ensures answer { result ≡ (if nat_lt (length (listed self.old)) N then Ok tt else Err x) }
        ensures items { listed self.new ≡ (if nat_lt (length (listed self.old)) N then listed self.old ++ x ∷ [] else listed self.old) }
    {
        let at = self.len();
        if at >= N {
            return Err(x);
        }
        self.items[at] = x;
        self.len = at + 1;
        Ok(())
    }
}

#[cfg(test)]
mod tests {
    use super::*;

    #[test]
    fn a_full_list_takes_no_more(rt: HostRuntime) {
        let mut list: Few<i16, 2> = Few::none(0);
        assert!(rt; list.push(5).is_ok());
        assert!(rt; list.push(-5).is_ok());
        assert!(rt; list.push(1).is_err(), "two is all that it can hold");
        assert_eq!(rt; list.len(), 2);
    }
}
