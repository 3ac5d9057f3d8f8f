//! What the definitions come to. Each function has laws for its contract and does nothing.
ghost use Rattle.std.specs.Prelude.{◌≡◌, ◌⊎◌, ◌≤◌, ℕ, ◌+◌, List, [], ◌∷◌, ◌++◌, IsTrue, not, Option, Some, None, unwrap_or};
ghost use Rattle.std.specs.List.{AllByRecursion};
ghost use Rattle.std.specs.FinMap as map;
ghost use Rattle.block_device.specs.Prelude.{Disk, History, last_at, HasNoBadDone};
ghost use Rattle.meta_rows.specs.Prelude.{Rows};
ghost use Rattle.meta_log.specs.declared.slot.Super.{Super};
ghost use Rattle.object_model.specs.Prelude.{Collection, Objects, reply_of, is_refused, is_of_device};
ghost use Rattle.object_model.specs.declared.command.Command.TheVariants as ask;
ghost use Rattle.object_model.specs.declared.command.Read.{Read};
ghost use Rattle.object_model.specs.declared.command.Answer.{Answer};
ghost use Rattle.store_image.specs.Prelude.{HasOnode, NoBadRow, PageUnit, IsPageOn, HasPage, IsShape, ObjectsStand};
ghost use Rattle.unit_fields.specs.Prelude.{IsCollName};
ghost use Rattle.read_facts.specs.Walks.{IsCollection, IsObject, IsNextOf, AreNext, last_of, AreAll};
ghost use Rattle.read_facts.specs.PageReads.{IsHeldAt, IsFound, IsGoodPage, IsBadPage, AreGoodPages, IsFirstBad, IsBadUnit};
ghost use Rattle.read_facts.specs.Answers.{HasReadNames, IsAnswerOf};
ghost use Rattle.read_facts.specs.Alike.{IsAlike};
ghost use Rattle.read_facts.specs.Views.{WalksTo, WalksAll, HasGoodViews, views_of};
ghost use Rattle.read_facts.specs.declared.view.CollView.{CollView};
ghost use Rattle.meta_log.specs.Prelude.{width_of};
ghost use Rattle.unit_fields.specs.declared.width.Width.{Width};

/// The names of collections, and of the objects of one, stand in one order: that of the keys of objects that have the shape of the rows.
pub fn names_come_in_one_order()
    ensures colls { (rows : Rows) (names others : List (List ℕ)) → AreAll (IsCollection rows) names → AreAll (IsCollection rows) others
        → names ≡ others }
    ensures objects { (rows : Rows) (c : List ℕ) (names others : List (List ℕ)) → AreAll (IsObject rows c) names → AreAll (IsObject rows c) others
        → names ≡ others }
    ensures coll_keys { (s : Super) (rows : Rows) (objects : Objects) → NoBadRow s rows → IsShape rows objects
        → AreAll (IsCollection rows) (map.keys objects) }
    ensures object_keys { (rows : Rows) (objects : Objects) (c : List ℕ) (found : Collection) → IsShape rows objects
        → IsCollName c → map.get objects c ≡ Some found → AreAll (IsObject rows c) (map.keys found) }
{}

/// Rows of which none is bad have objects of their shape, so that which commands rows refuse says something of them.
pub fn rows_have_objects()
    ensures { (s : Super) (rows : Rows) → NoBadRow s rows → (objects : Objects) × IsShape rows objects }
{}

/// What is read page by page, and walked name by name: a run of good pages goes on with one more run of them or ends at a bad page, a walk goes on
/// with the next name. So it is whatever bytes are in memory.
pub fn reads_and_walks_go_on()
    ensures no_page { (w : Width) (memory : ℕ → Option (List ℕ)) (d : Disk) (rows : Rows) (c o : List ℕ) (first : ℕ)
        → AreGoodPages w memory (IsHeldAt d) rows c o first 0 [] }
    ensures good_pages { (w : Width) (memory : ℕ → Option (List ℕ)) (d : Disk) (rows : Rows) (c o : List ℕ) (first n m : ℕ) (xs ys : List ℕ)
        → AreGoodPages w memory (IsHeldAt d) rows c o first n xs → AreGoodPages w memory (IsHeldAt d) rows c o (first + n) m ys
        → AreGoodPages w memory (IsHeldAt d) rows c o first (n + m) (xs ++ ys) }
    ensures bad_page { (w : Width) (memory : ℕ → Option (List ℕ)) (d : Disk) (rows : Rows) (c o : List ℕ) (first n m count unit kept found : ℕ)
        (xs : List ℕ) → AreGoodPages w memory (IsHeldAt d) rows c o first n xs
        → IsFirstBad w memory (IsHeldAt d) rows c o (first + n) m unit kept found → n + m ≤ count
        → IsFirstBad w memory (IsHeldAt d) rows c o first count unit kept found }
    ensures coll { (rows : Rows) (after : Option (List ℕ)) (names : List (List ℕ)) (name : List ℕ) → AreNext (IsCollection rows) after names
        → IsNextOf (IsCollection rows) (last_of after names) name → AreNext (IsCollection rows) after (names ++ name ∷ []) }
    ensures object { (rows : Rows) (c : List ℕ) (after : Option (List ℕ)) (names : List (List ℕ)) (name : List ℕ)
        → AreNext (IsObject rows c) after names → IsNextOf (IsObject rows c) (last_of after names) name
        → AreNext (IsObject rows c) after (names ++ name ∷ []) }
    ensures last { (after : Option (List ℕ)) (names : List (List ℕ)) (name : List ℕ) → last_of after (names ++ name ∷ []) ≡ Some name }
{}

/// Bytes in memory are read as they are, whatever checksum is kept for them: a page on such a unit is good with these bytes, and never bad.
pub fn bytes_in_memory_are_read()
    ensures good { (w : Width) (memory : ℕ → Option (List ℕ)) (d : Disk) (rows : Rows) (c o : List ℕ) (page : ℕ) (on : PageUnit)
        (bytes : List ℕ) → IsPageOn w rows c o page on → memory on.unit ≡ Some bytes → IsGoodPage w memory (IsHeldAt d) rows c o page bytes }
    ensures never_bad { (w : Width) (memory : ℕ → Option (List ℕ)) (d : Disk) (rows : Rows) (c o : List ℕ) (page unit kept found : ℕ)
        (bytes : List ℕ) → memory unit ≡ Some bytes → ¬ IsBadPage w memory (IsHeldAt d) rows c o page unit kept found }
{}

/// Whatever is in memory and the device tells, a read is answered as objects would answer that have the shape of the rows, but for the bytes that
/// it gives; or by a bad unit where they don't refuse it.
pub fn reads_are_plain_but_for_bytes()
    ensures { (w : Width) (memory : ℕ → Option (List ℕ)) (d : Disk) (rows : Rows) (objects : Objects) (read : Read) (a : Answer)
        → IsShape rows objects → HasReadNames read → IsAnswerOf w memory (IsHeldAt d) rows read a
        → IsAlike (ask.Read read) a (reply_of (ask.Read read) objects)
        ⊎ (IsTrue (is_of_device (ask.Read read) a) × IsTrue (not (is_refused (reply_of (ask.Read read) objects)))) }
{}

/// Where the device tells what it holds, no write ended badly of a unit of the rows' pages that isn't in memory, and rows and units stand for
/// objects, a read is answered as these do, and so never by a bad unit. What a unit is taken to hold are its bytes in memory, else those last
/// written there.
pub fn reads_are_as_plain_objects()
    ensures { (w : Width) (memory : ℕ → Option (List ℕ)) (d : Disk) (h : History) (at : ℕ → List ℕ) (rows : Rows) (objects : Objects)
        (read : Read) (a : Answer) → d.history ≡ Some h
        → ((unit : ℕ) → HasPage w rows unit → memory unit ≡ None → HasNoBadDone h.log unit)
        → ((unit : ℕ) → at unit ≡ unwrap_or (memory unit) (last_at h unit)) → ObjectsStand w at rows objects → HasReadNames read
        → IsAnswerOf w memory (IsHeldAt d) rows read a → a ≡ reply_of (ask.Read read) objects }
{}

/// So is what a unit with a page is found to hold, and no page of these objects is on a bad unit.
pub fn units_are_as_plain_objects()
    ensures found { (w : Width) (memory : ℕ → Option (List ℕ)) (d : Disk) (h : History) (at : ℕ → List ℕ) (rows : Rows) (unit : ℕ)
        (bytes : List ℕ) → d.history ≡ Some h
        → ((unit : ℕ) → HasPage w rows unit → memory unit ≡ None → HasNoBadDone h.log unit)
        → ((unit : ℕ) → at unit ≡ unwrap_or (memory unit) (last_at h unit)) → HasPage w rows unit → IsFound memory (IsHeldAt d) unit bytes
        → bytes ≡ at unit }
    ensures never_bad { (w : Width) (memory : ℕ → Option (List ℕ)) (d : Disk) (h : History) (at : ℕ → List ℕ) (rows : Rows) (objects : Objects)
        (c o : List ℕ) (size page unit kept found : ℕ) → d.history ≡ Some h
        → ((unit : ℕ) → HasPage w rows unit → memory unit ≡ None → HasNoBadDone h.log unit)
        → ((unit : ℕ) → at unit ≡ unwrap_or (memory unit) (last_at h unit)) → ObjectsStand w at rows objects → HasOnode rows c o size
        → IsPageOn w rows c o page (record { unit = unit; csum = kept }) → ¬ IsBadUnit memory (IsHeldAt d) unit kept found }
{}

/// And a walk shows just these objects, no page of which is bad.
pub fn walks_show_plain_objects()
    ensures all { (memory : ℕ → Option (List ℕ)) (d : Disk) (h : History) (at : ℕ → List ℕ) (s : Super) (rows : Rows) (objects : Objects)
        (colls : List CollView) → d.history ≡ Some h
        → ((unit : ℕ) → HasPage (width_of s) rows unit → memory unit ≡ None → HasNoBadDone h.log unit)
        → ((unit : ℕ) → at unit ≡ unwrap_or (memory unit) (last_at h unit)) → NoBadRow s rows
        → ObjectsStand (width_of s) at rows objects → WalksAll (width_of s) memory (IsHeldAt d) rows colls → colls ≡ views_of objects }
    ensures good { (w : Width) (memory : ℕ → Option (List ℕ)) (d : Disk) (h : History) (at : ℕ → List ℕ) (rows : Rows) (objects : Objects)
        (colls : List CollView) → d.history ≡ Some h
        → ((unit : ℕ) → HasPage w rows unit → memory unit ≡ None → HasNoBadDone h.log unit)
        → ((unit : ℕ) → at unit ≡ unwrap_or (memory unit) (last_at h unit)) → ObjectsStand w at rows objects
        → WalksTo w memory (IsHeldAt d) rows colls → AllByRecursion HasGoodViews colls }
{}
