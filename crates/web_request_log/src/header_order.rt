//! In which order names are printed.
ghost use Rattle.std.specs.Prelude.{◌≡◌, ◌↔◌, ℕ, List};
ghost use Rattle.web_request_log.specs.SortedNames.{sorted_names, IsIncreasing};

/// Sorted names are the one list of the same names in increasing order of their bytes.
pub fn header_order_law()
    ensures { (names others : List (List ℕ))
        → (others ≡ sorted_names names) ↔ IsIncreasing names others }
{}
