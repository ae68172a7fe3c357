//! The definitions computed for small maps.

ghost use Rattle.std.specs.Prelude.{◌≡◌, [], ◌∷◌, take, Some, None, true, false};
ghost use Rattle.std.specs.declared.cmp.Ordering.TheVariants.{Equal, Greater};
ghost use Rattle.art_parts.specs.declared.names.NodeType.TheVariants.{Node4, Node16, Node48, Node256};
ghost use Rattle.art_model.specs.Pairs.{first_of, last_of, without_first, without_last, put, put_reply, overwrite, overwrite_reply, remove_key, remove_reply, match_of, is_conflict};
ghost use Rattle.art_model.specs.Trees.{leaf};
ghost use Rattle.art_model.specs.Footprints.{TouchesAtMost};
ghost use Rattle.art_model.specs.Kept.{ChangesInPlace};
ghost use Rattle.art_model.specs.Radix.{unmarked};
ghost use Rattle.art_model.specs.NameExamples.{two_keys, tree_of_two, three_keys, tree_of_three};
ghost use Rattle.art_model.specs.Layouts.{IsLayout, AreLinked, leaf_names};
ghost use Rattle.art_model.specs.Places.{places, inner_nodes};
ghost use Rattle.art_model.specs.FaultExamples.{looped, shared, self_linked, linked_to_nothing, misplaced, unreadable, misstored};
ghost use Rattle.art_model.specs.Faults.{IsTrueOf, dead_name, leaf_sibling_wrong_order, loop_found, prefix_mismatch, stored_prefix_mismatch, unreadable_prefix, wrong_children_count, wrong_sibling_links};
ghost use Rattle.art_model.specs.Examples.{bytes_of_pair, tree_of_keys, over_two, one_byte_keys, fan, zero_keys, zero_tree, three_pairs, interact, interest, kit, bytes_of_tagged, tagged_pair, node4, leaf_at, pictured, pictured_at, pictured_links};

/// No key, one key, a prefix longer than the two bytes that can be stored, and a node below a node.
pub fn trees_of_few_keys()
    ensures none { tree_of_keys [] 16 ≡ None }
    ensures one { tree_of_keys ((9 ∷ 9 ∷ []) ∷ []) 16 ≡ Some (leaf tt (9 ∷ 9 ∷ [])) }
    ensures long_prefix { tree_of_keys
        ((7 ∷ 1 ∷ 1 ∷ 1 ∷ 1 ∷ 5 ∷ []) ∷ (7 ∷ 1 ∷ 1 ∷ 1 ∷ 1 ∷ 6 ∷ []) ∷ []) 2
        ≡ Some (over_two 5 (7 ∷ 1 ∷ [])
        5 (leaf tt (7 ∷ 1 ∷ 1 ∷ 1 ∷ 1 ∷ 5 ∷ []))
        6 (leaf tt (7 ∷ 1 ∷ 1 ∷ 1 ∷ 1 ∷ 6 ∷ []))) }
    ensures nested { tree_of_keys ((1 ∷ 2 ∷ []) ∷ (1 ∷ 3 ∷ []) ∷ (2 ∷ []) ∷ []) 16
        ≡ Some (over_two 0 []
        1 (over_two 0 [] 2 (leaf tt (1 ∷ 2 ∷ [])) 3 (leaf tt (1 ∷ 3 ∷ [])))
        2 (leaf tt (2 ∷ []))) }
    ensures twelve { tree_of_keys (zero_keys 12) 16 ≡ Some (zero_tree 11 []) }
{}

/// The kind of a node changes with the fifth, the seventeenth and the forty-ninth child.
pub fn kinds_by_number_of_children()
    ensures four { tree_of_keys (one_byte_keys 4 0) 16 ≡ Some (fan Node4 4) }
    ensures five { tree_of_keys (one_byte_keys 5 0) 16 ≡ Some (fan Node16 5) }
    ensures sixteen { tree_of_keys (one_byte_keys 16 0) 16 ≡ Some (fan Node16 16) }
    ensures seventeen { tree_of_keys (one_byte_keys 17 0) 16 ≡ Some (fan Node48 17) }
    ensures forty_eight { tree_of_keys (one_byte_keys 48 0) 16 ≡ Some (fan Node48 48) }
    ensures forty_nine { tree_of_keys (one_byte_keys 49 0) 16 ≡ Some (fan Node256 49) }
    ensures all_bytes { tree_of_keys (one_byte_keys 256 0) 16 ≡ Some (fan Node256 256) }
{}

/// Keys between others, equal keys, and keys that are prefixes of others.
pub fn puts_into_a_small_map()
    ensures between { put bytes_of_pair (1 ∷ 2 ∷ 9 ∷ [], 8) ((1 ∷ 3 ∷ [], 6) ∷ (2 ∷ [], 7) ∷ []) ≡
        (1 ∷ 2 ∷ 9 ∷ [], 8) ∷ (1 ∷ 3 ∷ [], 6) ∷ (2 ∷ [], 7) ∷ [] }
    ensures in_place { put bytes_of_pair (1 ∷ 3 ∷ [], 8) three_pairs ≡
        (1 ∷ 2 ∷ [], 5) ∷ (1 ∷ 3 ∷ [], 8) ∷ (2 ∷ [], 7) ∷ [] }
    ensures replaced { put_reply bytes_of_pair (1 ∷ 3 ∷ [], 8) three_pairs ≡ Some (1 ∷ 3 ∷ [], 6) }
    ensures new { put_reply bytes_of_pair (1 ∷ 4 ∷ [], 8) three_pairs ≡ None }
    ensures equal { is_conflict bytes_of_pair (1 ∷ 3 ∷ []) three_pairs ≡ false }
    ensures shorter { is_conflict bytes_of_pair (1 ∷ []) three_pairs ≡ true }
    ensures longer { is_conflict bytes_of_pair (2 ∷ 0 ∷ []) three_pairs ≡ true }
    ensures empty { is_conflict bytes_of_pair [] three_pairs ≡ true }
{}

/// A key related to none, to one and to two.
pub fn overwrites_of_a_small_map()
    ensures none { overwrite bytes_of_pair (0 ∷ [], 8) three_pairs ≡ (0 ∷ [], 8) ∷ three_pairs }
    ensures none_gone { overwrite_reply bytes_of_pair (0 ∷ [], 8) three_pairs ≡ (None, 0) }
    ensures one { overwrite bytes_of_pair (2 ∷ 9 ∷ [], 8) three_pairs ≡
        (1 ∷ 2 ∷ [], 5) ∷ (1 ∷ 3 ∷ [], 6) ∷ (2 ∷ 9 ∷ [], 8) ∷ [] }
    ensures one_gone { overwrite_reply bytes_of_pair (2 ∷ 9 ∷ [], 8) three_pairs ≡
        (Some (2 ∷ [], 7), 0) }
    ensures two { overwrite bytes_of_pair (1 ∷ [], 8) three_pairs ≡ (1 ∷ [], 8) ∷ (2 ∷ [], 7) ∷ [] }
    ensures two_gone { overwrite_reply bytes_of_pair (1 ∷ [], 8) three_pairs ≡ (None, 2) }
{}

/// Keys with a tag that their bytes don't contain: a stored key stays, and the reply has the one that was passed.
pub fn puts_of_equal_keys()
    ensures put { put bytes_of_tagged ((1 ∷ 2 ∷ [], 2), 20) tagged_pair ≡
        ((1 ∷ 2 ∷ [], 1), 20) ∷ [] }
    ensures put_answer { put_reply bytes_of_tagged ((1 ∷ 2 ∷ [], 2), 20) tagged_pair ≡
        Some ((1 ∷ 2 ∷ [], 2), 10) }
    ensures overwrite { overwrite bytes_of_tagged ((1 ∷ 2 ∷ [], 3), 30) tagged_pair ≡
        ((1 ∷ 2 ∷ [], 1), 30) ∷ [] }
    ensures overwrite_answer { overwrite_reply bytes_of_tagged ((1 ∷ 2 ∷ [], 3), 30) tagged_pair ≡
        (Some ((1 ∷ 2 ∷ [], 3), 10), 0) }
    ensures unequal { overwrite bytes_of_tagged ((1 ∷ [], 4), 40) tagged_pair ≡
        ((1 ∷ [], 4), 40) ∷ [] }
    ensures unequal_answer { overwrite_reply bytes_of_tagged ((1 ∷ [], 4), 40) tagged_pair ≡
        (Some ((1 ∷ 2 ∷ [], 1), 10), 0) }
{}

/// Removals by key and at both ends, and the key that is a prefix of a query.
pub fn removals_and_matches_in_a_small_map()
    ensures present { remove_key bytes_of_pair (1 ∷ 3 ∷ []) three_pairs ≡
        (1 ∷ 2 ∷ [], 5) ∷ (2 ∷ [], 7) ∷ [] }
    ensures removed { remove_reply bytes_of_pair (1 ∷ 3 ∷ []) three_pairs ≡ Some (1 ∷ 3 ∷ [], 6) }
    ensures absent { remove_key bytes_of_pair (1 ∷ []) three_pairs ≡ three_pairs }
    ensures none_removed { remove_reply bytes_of_pair (1 ∷ []) three_pairs ≡ None }
    ensures first { first_of three_pairs ≡ Some (1 ∷ 2 ∷ [], 5) }
    ensures last { last_of three_pairs ≡ Some (2 ∷ [], 7) }
    ensures all_but_first { without_first three_pairs ≡ (1 ∷ 3 ∷ [], 6) ∷ (2 ∷ [], 7) ∷ [] }
    ensures all_but_last { without_last three_pairs ≡ (1 ∷ 2 ∷ [], 5) ∷ (1 ∷ 3 ∷ [], 6) ∷ [] }
    ensures longer_query { match_of bytes_of_pair (1 ∷ 3 ∷ 9 ∷ []) three_pairs ≡
        (1 ∷ 3 ∷ [], 6) ∷ [] }
    ensures shorter_query { match_of bytes_of_pair (1 ∷ []) three_pairs ≡ [] }
{}

/// The tree of three words with a name for each node: its layout, its links, its places and the whole bytes
/// of its inner nodes.
pub fn a_tree_with_its_names()
    ensures tree { tree_of_keys (interact ∷ interest ∷ kit ∷ []) 2 ≡ Some (unmarked pictured) }
    ensures layout { IsLayout pictured_at (node4 0) pictured }
    ensures linked { AreLinked pictured_links None (leaf_names pictured) None }
    ensures places { places (λ key. key) 0 pictured ≡
        ([], node4 0) ∷ (105 ∷ [], node4 1) ∷ (take 6 interact, leaf_at 2) ∷
        (take 6 interest, leaf_at 0) ∷ (107 ∷ [], leaf_at 5) ∷ [] }
    ensures whole_bytes { inner_nodes (λ key. key) 0 pictured ≡
        (Node4, [], node4 0) ∷ (Node4, take 5 interact, node4 1) ∷ [] }
{}

/// Faults of small stores: a dead name, loops, too few children, a misplaced key, false links, and prefixes that can't
/// be read or are stored wrongly. At most two bytes of a prefix are stored.
pub fn faults_of_small_stores()
    ensures dead_root { IsTrueOf bytes_of_pair 2 looped (leaf_at 0) (dead_name [] (leaf_at 0)) }
    ensures dead_sibling { IsTrueOf bytes_of_pair 2 linked_to_nothing (leaf_at 0)
        (dead_name [] (leaf_at 7)) }
    ensures own_child { IsTrueOf bytes_of_pair 2 looped (node4 0)
        (loop_found (node4 0) [] (5 ∷ [])) }
    ensures shared_leaf { IsTrueOf bytes_of_pair 2 shared (node4 0)
        (loop_found (leaf_at 0) (1 ∷ []) (2 ∷ [])) }
    ensures one_child { IsTrueOf bytes_of_pair 2 misplaced (node4 0)
        (wrong_children_count [] Node4 1) }
    ensures other_byte { IsTrueOf bytes_of_pair 2 misplaced (node4 0)
        (prefix_mismatch (1 ∷ []) (2 ∷ [])) }
    ensures own_next { IsTrueOf bytes_of_pair 2 self_linked (leaf_at 0)
        (leaf_sibling_wrong_order (1 ∷ []) (1 ∷ []) Greater Equal) }
    ensures false_link { IsTrueOf bytes_of_pair 2 self_linked (leaf_at 0)
        (wrong_sibling_links (1 ∷ []) (record { previous = None; next = None })
        (record { previous = None; next = Some (leaf_at 0) })) }
    ensures no_leaf { IsTrueOf bytes_of_pair 2 unreadable (node4 0)
        (unreadable_prefix [] (node4 0)) }
    ensures stored { IsTrueOf bytes_of_pair 2 misstored (node4 0)
        (stored_prefix_mismatch [] (1 ∷ 2 ∷ []) (1 ∷ 1 ∷ [])) }
{}

/// Two insertions of a key that leave a tree of the new pairs and touch no more than an insertion may, but rename a
/// stored node: one a leaf, the other an inner node. Neither changes the tree in place; a third one that renames none
/// does.
pub fn stored_nodes_with_new_names()
    ensures all_names_stay { ChangesInPlace bytes_of_pair two_keys (three_keys 1 0)
        (Some tree_of_two) (Some (tree_of_three 1 0)) }
    ensures few_for_a_leaf { TouchesAtMost 2 2 4 two_keys (three_keys 0 0) }
    ensures a_leaf_is_renamed { ChangesInPlace bytes_of_pair two_keys (three_keys 0 0)
        (Some tree_of_two) (Some (tree_of_three 0 0)) → ⊥ }
    ensures few_for_an_inner_node { TouchesAtMost 2 2 4 two_keys (three_keys 1 1) }
    ensures an_inner_node_is_renamed { ChangesInPlace bytes_of_pair two_keys (three_keys 1 1)
        (Some tree_of_two) (Some (tree_of_three 1 1)) → ⊥ }
{}
