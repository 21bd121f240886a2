//! Dumps by hand.
ghost use Rattle.std.specs.Prelude.{◌≡◌, [], ◌∷◌, flat_map, codes};
ghost use Rattle.catalog_show_create.specs.catalog_rules.Bases.{empty_base};
ghost use Rattle.dump_store.specs.Lines.{dump_lines, line};
ghost use Rattle.dump_store.specs.Worked.{base_by_hand, base_without_rows};

/// Nothing; a table that was just made; two tables with rows, a procedure between them and a trigger behind.
pub fn dumps_by_hand()
    ensures nothing { dump_lines empty_base ≡ [] }
    ensures no_rows { dump_lines base_without_rows ≡ flat_map line (
        codes "create CREATE TABLE `t` (`id` INT NOT NULL, `v` INT NULL, PRIMARY KEY (`id`))" ∷ []) }
    ensures objects { dump_lines base_by_hand ≡ flat_map line (
        codes "create CREATE TABLE `t` (`id` INT NOT NULL, `v` INT NULL, PRIMARY KEY (`id`))"
        ∷ codes "row -7, 10"
        ∷ codes "row 3, NULL"
        ∷ codes "create CREATE PROCEDURE `p`() BEGIN END"
        ∷ codes "create CREATE TABLE `w` (`k` VARCHAR(9) NOT NULL, PRIMARY KEY (`k`))"
        ∷ codes "row 'ink'"
        ∷ codes "row 'pen'"
        ∷ codes "create CREATE TRIGGER `h` AFTER DELETE ON `t` FOR EACH ROW BEGIN END"
        ∷ []) }
{}
