ghost use Rattle.std.specs.Prelude.{◌≡◌, true, [], ◌∷◌, ◌++◌, MatchOption};
ghost use Rattle.trees.specs.PrivateNode.{lists_of, flat, are_full};
ghost use Rattle.trees.specs.PrivateSeen.{seen_kids};
ghost use Rattle.trees.specs.PrivateWalk.{ArePassed};

use crate::CopyOptions;
use crate::lent_node::LentNode;
use crate::node::Node;
use crate::part::Part;
use plain::Text;
use std::marker::Model;

/// The children of a folder that are left to be gone through, in the order of their names.
#[derive(Drop)]
pub(crate) struct Kids<'a> {
    /// What is left of the part that was begun.
    begun: &'a [(Text, Node)],
    parts: &'a [Part],
    /// What COPYs put on each of them.
    options: CopyOptions,
}

impl<'a> Model for Kids<'a> {
    ghost use Rattle.std.specs.Prelude.{◌≡◌, true, ℕ, List, ◌++◌};
    ghost use Rattle.trees.specs.PrivateNode.{NodeValue, kids_code, lists_of, flat, are_full};
    ghost use Rattle.trees.specs.PrivateSeen.{seen_kids};

    ghost Value = { List (List ℕ × NodeValue) };

    ghost coded = { kids_code };

    ghost view = { λ k. seen_kids k.options (k.begun.now ++ flat (lists_of k.parts.now)) };

    ghost invariant = { λ k. are_full (lists_of k.parts.now) ≡ true };
}

impl<'a> Kids<'a> {
    /// None.
    pub(crate) fn none() -> Kids<'a>
        ensures { result ≡ [] }
    {
        Kids::of_begun(&[], &[], CopyOptions::keeping())
    }

    /// The children that are left of a part, and then those of these parts, with the mode and the owner that these options put on them.
    pub(crate) fn of_begun(
        begun: &'a [(Text, Node)],
        parts: &'a [Part],
        options: CopyOptions,
    ) -> Kids<'a>
        requires { are_full (lists_of parts.now) ≡ true }
        ensures { result ≡ seen_kids options (begun.now ++ flat (lists_of parts.now)) }
    {
        Kids {
            begun,
            parts,
            options,
        }
    }

    /// The next child.
    pub(crate) fn next(&mut self) -> Option<(&'a Text, LentNode<'a>)>
        ensures { MatchOption result ((self.old ≡ []) × (self.new ≡ [])) (λ kid. self.old ≡ (kid.0.now, kid.1) ∷ self.new) }
    {
        if let [(name, kid), rest @ ..] = self.begun {
            self.begun = rest;
            return Some((name, LentNode::of(kid, self.options)));
        }
        match self.parts {
            [] => None,
            [part, rest @ ..] => {
                self.parts = rest;
                match part.rows() {
                    [] => None,
                    [(name, kid), left @ ..] => {
                        self.begun = left;
                        Some((name, LentNode::of(kid, self.options)))
                    }
                }
            }
        }
    }

    /// Goes past the next children, so many at most, as far as they lie side by side. It tells the last one's name and how many they are, and
    /// looks at none of them. If the next one lies elsewhere, none is left or `most` is 0, it stays where it is.
    pub(crate) fn pass_up_to(&mut self, most: usize) -> Option<(&'a Text, usize)>
        ensures { MatchOption result (self.new ≡ self.old) (λ last. ArePassed most self.old self.new last.0.now last.1) }
    {
        let (passed, behind) = self.begun.split_at(most.min(self.begun.len()));
        let Some((name, _)) = passed.last() else {
            return None;
        };
        self.begun = behind;
        Some((name, passed.len()))
    }
}
