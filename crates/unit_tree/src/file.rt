//! Program units: modules (ISO/IEC 1539-1:2018, 14.2) and a main program that uses them (14.1).

use caf_base::place::Pos;
use fortran_tree::declaration::Declaration;
use fortran_tree::name::Name;
use fortran_tree::statement::End;
use fortran_tree::unit::{Body, ModuleNature, Procedure};

/// `local => entity`: the entity of a module under a name of its own (rename, 14.2.2, R1411).
#[derive(Drop)]
pub struct Rename {
    pub local: Name,
    pub entity: Name,
}

/// An item behind ONLY (R1412).
#[derive(Drop)]
pub enum OnlyItem {
    Named(Name),
    Renamed(Rename),
}

/// What USE makes accessible of a module.
#[derive(Drop)]
pub enum UseList {
    /// Everything, some of it under other names.
    All { renames: Vec<Rename> },
    /// What is listed behind ONLY.
    Only { items: Vec<OnlyItem> },
}

/// A USE statement (R1409), at its first token.
#[derive(Drop)]
pub struct Use {
    pub nature: ModuleNature,
    pub module: Name,
    pub list: UseList,
    pub at: Pos,
}

/// A module (R1404), at its first token: the place of IMPLICIT NONE where it stands, and the procedures where CONTAINS
/// stands.
#[derive(Drop)]
pub struct Module {
    pub name: Name,
    pub uses: Vec<Use>,
    pub implicit_none: Option<Pos>,
    pub declarations: Vec<Declaration>,
    pub procedures: Option<Vec<Procedure>>,
    pub end: End,
    pub at: Pos,
}

/// A main program (R1401): the name of its PROGRAM statement where it stands, and the procedures where CONTAINS stands.
#[derive(Drop)]
pub struct MainProgram {
    pub name: Option<Name>,
    pub uses: Vec<Use>,
    pub body: Body,
    pub procedures: Option<Vec<Procedure>>,
    pub end: End,
}

/// A file (5.1): its modules in source order, and the main program behind them.
#[derive(Drop)]
pub struct UnitFile {
    pub modules: Vec<Module>,
    pub main: MainProgram,
}
