//! Ported from `src/projection_read_plan.rs` of the crate datafusion-datasource-parquet 55.0.0, changed: the visitor is a walk
//! over the nodes of a sheet.
ghost use Rattle.std.specs.Prelude.{◌≡◌, ◌+◌, ◌<◌, ◌≤◌, true, false, not, ◌&&◌, [], map, length, Some, slice_index_or};
ghost use Rattle.std.specs.List.{range_with_len};
ghost use Rattle.std.specs.Option.{option_map};
ghost use Rattle.rules.specs.Types.{is_nested, type_at};
ghost use Rattle.rules.specs.Expressions.{name_of_column};
ghost use Rattle.format.specs.declared.kinds.NodeKind.TheVariants.{GetField, Cast};
ghost use Rattle.format.specs.Records.{no_node};
ghost use Rattle.sheet.specs.Seen.{types_in, roots_in, nodes_in};
ghost use Rattle.sheet.specs.SheetExpressions.{type_at_place, expr_at};
ghost use Rattle.access.specs.Accesses.{node_name};
ghost use Rattle.arrayvec.specs.ArrayVec.{array_vec_len};
ghost use Rattle.checker.specs.Found.{found, columns_in, columns_of};
ghost use Rattle.checker.specs.Notes.{no_notes, noted, is_kept_back};
ghost use Rattle.checker.specs.Visits.{kind_at, Accessed, Recorded, Visited};
ghost use Rattle.checker.specs.Settings.{Settings, SameSettings, sheet_of, file_of, supports, is_of_map, follows, column_findings, access_findings, findings_at};

use crate::columns::PushdownColumns;
use crate::data_type::{is_list, is_map, is_nested};
use crate::nodes::{column_name, end_of, literal_path};
use crate::recursion::TreeNodeRecursion;
use crate::root_set::RootSet;
use crate::state::PushdownChecker;
use access::{CastColumnAccess, StructFieldAccess};
use arrayvec::ArrayVec;
use nested::TypePair;
use sheet::inner::{NodeRef, TypeRef};
use sheet::{NodeKind, NodeRecord, Sheet};

// The methods that look at a node take its place, which the checker's sheet must have; a `NodeRef` would need the clause that its
// sheet is the checker's, in place of that one. Room for one more access holds before a node, and not of every checker.
impl<'schema> PushdownChecker<'schema> {
    /// A checker that has found nothing yet, and records no casts.
    pub fn new(file_schema: &'schema Sheet, allow_list_columns: bool) -> Self
        ensures nothing { found result ≡ no_notes }
        ensures settings { Settings file_schema.now allow_list_columns false result }
        ensures accesses { result.struct_field_accesses.items ≡ [] }
        ensures casts { result.cast_accesses.items ≡ [] }
    {
        PushdownChecker {
            file_schema,
            allow_list_columns,
            collect_cast_accesses: false,
            projected_columns: false,
            non_primitive_columns: false,
            has_unpushable_udfs: false,
            required_columns: RootSet::new(),
            struct_field_accesses: ArrayVec::new(),
            cast_accesses: ArrayVec::new(),
        }
    }

    /// The same checker, which records casts.
    pub fn with_cast_collection(mut self) -> Self
        ensures notes { found result ≡ found self.entry }
        ensures settings { Settings (sheet_of self.entry) self.entry.allow_list_columns true result }
        ensures accesses { result.struct_field_accesses ≡ self.entry.struct_field_accesses }
        ensures casts { result.cast_accesses ≡ self.entry.cast_accesses }
    {
        self.collect_cast_accesses = true;
        self
    }

    // The type of a root.
    fn root_type(&self, root: usize) -> TypeRef<'schema>
        requires { root < length (roots_in (sheet_of self.now)) }
        ensures sheet { result.sheet.now ≡ sheet_of self.now }
        ensures root { type_at_place result.sheet.now result.place ≡ type_at (file_of self.now) root }
    {
        TypeRef::of_root(self.file_schema, root)
    }

    // Lists are supported where the predicate is.
    fn is_nested_type_supported(&self, data_type: TypeRef<'_>) -> bool
        ensures { result ≡ supports self.now (type_at_place data_type.entry.sheet.now data_type.entry.place) }
    {
        self.allow_list_columns && is_list(data_type)
    }

    fn is_unsupported(&self, data_type: TypeRef<'_>) -> bool
        ensures { let t = type_at_place data_type.entry.sheet.now data_type.entry.place in result ≡ (is_nested t && not (supports self.now t)) }
    {
        is_nested(data_type) && !self.is_nested_type_supported(data_type)
    }

    // A column that is read whole.
    fn check_single_column(&mut self, column_name: &[u8])
        ensures notes { found self.new ≡ noted (found self.old) (column_findings self.old column_name.now) }
        ensures settings { SameSettings self.old self.new }
    {
        let Some(idx) = self.file_schema.root_named(column_name) else {
            self.projected_columns = true;
            return;
        };
        self.required_columns.insert(idx);
        if self.is_unsupported(self.root_type(idx)) {
            self.non_primitive_columns = true;
        }
    }

    // A column that is read along a path: the texts of literals, which stand one behind the other among the nodes.
    fn check_struct_field_column(&mut self, column_name: &[u8], first_part: usize, parts: usize)
        requires room { array_vec_len self.old.struct_field_accesses < 256 }
        requires within { first_part + parts ≤ length (nodes_in (sheet_of self.old)) }
        ensures notes { found self.new ≡ noted (found self.old) (access_findings self.old column_name.now (map (node_name (sheet_of self.old)) (range_with_len first_part parts))) }
        ensures settings { SameSettings self.old self.new }
    {
        let Some(idx) = self.file_schema.root_named(column_name) else {
            self.projected_columns = true;
            return;
        };
        self.struct_field_accesses.push(StructFieldAccess {
            root_index: idx as u16,
            first_part: first_part as u16,
            parts: parts as u16,
        });
    }

    fn is_map_column(&self, column_name: &[u8]) -> bool
        ensures { result ≡ is_of_map self.now column_name.now }
    {
        // A match: of two calls in a closure for `is_some_and` the proof learns nothing.
        match self.file_schema.root_named(column_name) {
            Some(idx) => is_map(self.root_type(idx)),
            None => false,
        }
    }

    // A field of a Map is no column, and one of an unsupported type is not read for itself.
    fn follows_path(&self, column_name: &[u8], return_type: TypeRef<'_>) -> bool
        ensures { result ≡ follows self.now column_name.now (type_at_place return_type.entry.sheet.now return_type.entry.place) }
    {
        !self.is_map_column(column_name)
            && (!is_nested(return_type) || self.is_nested_type_supported(return_type))
    }

    // The type that the node at a place bears.
    fn node_type(&self, place: usize) -> TypeRef<'schema>
        requires { (slice_index_or (nodes_in (sheet_of self.now)) place no_node).type_place < length (types_in (sheet_of self.now)) }
        ensures sheet { result.sheet.now ≡ sheet_of self.now }
        ensures place { result.place ≡ (slice_index_or (nodes_in (sheet_of self.now)) place no_node).type_place }
    {
        let node = self.file_schema.record::<NodeRecord>(place);
        TypeRef::at(self.file_schema, node.type_place as usize)
    }

    // The name of the column that stands right behind a place, if one does.
    fn column_behind(&self, place: usize) -> Option<&'schema [u8]>
        requires { place + 1 < length (nodes_in (sheet_of self.now)) }
        ensures { option_map (λ x. x.now) result ≡ name_of_column (expr_at (sheet_of self.now) (place + 1)) }
    {
        column_name(NodeRef::at(self.file_schema, place + 1))
    }

    // The column of the get_field at a place, if it is read along a path.
    fn accessed_column(&self, place: usize) -> Option<&'schema [u8]>
        requires there { place < length (nodes_in (sheet_of self.now)) }
        requires kind { kind_at (sheet_of self.now) place ≡ Some GetField }
        ensures { Accessed self.now place (option_map (λ x. x.now) result) }
    {
        if self.file_schema.record::<NodeRecord>(place).children == 0 {
            return None;
        }
        let name = self.column_behind(place)?;
        self.follows_path(name, self.node_type(place))
            .then_some(name)
    }

    fn check_get_field(&mut self, place: usize) -> TreeNodeRecursion
        requires there { place < length (nodes_in (sheet_of self.old)) }
        requires kind { kind_at (sheet_of self.old) place ≡ Some GetField }
        requires room { array_vec_len self.old.struct_field_accesses < 256 }
        ensures visited { Visited self.old place self.new result }
        ensures settings { SameSettings self.old self.new }
    {
        let Some(name) = self.accessed_column(place) else {
            return TreeNodeRecursion::Continue;
        };
        match literal_path(NodeRef::at(self.file_schema, place)) {
            Some(parts) => self.check_struct_field_column(name, place + 2, parts),
            None => self.check_single_column(name),
        }
        TreeNodeRecursion::Jump
    }

    // The root that the cast at a place is recorded for, if it is.
    fn recorded_root(&self, place: usize) -> Option<usize>
        requires there { place < length (nodes_in (sheet_of self.now)) }
        requires kind { kind_at (sheet_of self.now) place ≡ Some Cast }
        ensures { Recorded self.now place result }
    {
        if !self.collect_cast_accesses {
            return None;
        }
        let name = self.column_behind(place)?;
        let idx = self.file_schema.root_named(name)?;
        let data_type = self.root_type(idx).place();
        let cast_type = self.node_type(place).place();
        TypePair::of(self.file_schema, data_type, cast_type)
            .requires_nested_struct_cast()
            .then_some(idx)
    }

    fn check_cast(&mut self, place: usize) -> TreeNodeRecursion
        requires there { place < length (nodes_in (sheet_of self.old)) }
        requires kind { kind_at (sheet_of self.old) place ≡ Some Cast }
        requires room { array_vec_len self.old.cast_accesses < 256 }
        ensures visited { Visited self.old place self.new result }
        ensures settings { SameSettings self.old self.new }
    {
        let Some(idx) = self.recorded_root(place) else {
            return TreeNodeRecursion::Continue;
        };
        self.cast_accesses.push(CastColumnAccess {
            root_index: idx as u16,
            target_type: self.file_schema.record::<NodeRecord>(place).type_place,
        });
        TreeNodeRecursion::Jump
    }

    // Each node by its kind.
    fn f_down(&mut self, place: usize) -> TreeNodeRecursion
        requires there { place < length (nodes_in (sheet_of self.old)) }
        requires accesses { array_vec_len self.old.struct_field_accesses < 256 }
        requires casts { array_vec_len self.old.cast_accesses < 256 }
        ensures visited { Visited self.old place self.new result }
        ensures settings { SameSettings self.old self.new }
    {
        let node = NodeRef::at(self.file_schema, place);
        match node.kind() {
            NodeKind::GetField => self.check_get_field(place),
            NodeKind::Cast => self.check_cast(place),
            NodeKind::Column => {
                self.check_single_column(node.name());
                TreeNodeRecursion::Jump
            }
            NodeKind::InputFileName | NodeKind::FileRowIndex => {
                self.has_unpushable_udfs = true;
                TreeNodeRecursion::Jump
            }
            _ => TreeNodeRecursion::Continue,
        }
    }

    /// Goes through the expression at a place, in preorder.
    pub fn visit(&mut self, place: usize)
        requires there { place < length (nodes_in (sheet_of self.old)) }
        requires accesses { self.old.struct_field_accesses.items ≡ [] }
        requires casts { self.old.cast_accesses.items ≡ [] }
        ensures notes { found self.new ≡ noted (found self.old) (findings_at self.old place) }
        ensures settings { SameSettings self.old self.new }
    {
        let end = end_of(NodeRef::at(self.file_schema, place));
        let mut at = place;
        // A loop: how far each step goes depends on the node.
        while at < end {
            let span = self.file_schema.record::<NodeRecord>(at).span as usize;
            at += self.f_down(at).steps(span);
        }
    }

    /// Whether anything keeps the expression from being pushed down.
    pub fn prevents_pushdown(&self) -> bool
        ensures { result ≡ is_kept_back (found self.now) }
    {
        self.non_primitive_columns || self.projected_columns || self.has_unpushable_udfs
    }

    /// What the checker found, with the required roots sorted.
    pub fn into_sorted_columns(self) -> PushdownColumns
        ensures { columns_in (sheet_of self.entry) result ≡ columns_of (found self.entry) }
    {
        PushdownColumns {
            required_columns: self.required_columns.sorted(),
            struct_field_accesses: self.struct_field_accesses,
            cast_accesses: self.cast_accesses,
        }
    }
}
